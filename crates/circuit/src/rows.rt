// What the row of a node says: its element, and its record.
ghost use Rattle.std.specs.Prelude.{◌≡◌, ◌<◌};
ghost use Rattle.netlist.specs.Net.{size, node_at, element_at};
ghost use Rattle.circuit.specs.Code.{Coded, op_by, element_by};
ghost use Rattle.circuit.specs.Circuit.{net_of, Circuit};

use super::codes::{ASYNC_ROM, CLOCKED_ROM, GATE, INPUT, OUTPUT, REGISTER};
use super::{code_of, number_of, source_of, table_of, width_of};
use netlist::{Element, Memory, Node};
use nodes::{CONSTANT, PART, plain_op};
use words::Op;

// The operation and the element of a code, a number and a table.
fn op_by(k: u8, x: u16) -> Op
    requires few { k < 12 }
    requires held { k ≡ 10 → x < 256 }
    ensures { result ≡ op_by k x }
{
    match k {
        CONSTANT => Op::Constant(x),
        PART => Op::Part(x as u8),
        _ => plain_op(k),
    }
}

fn element_by(code: usize, x: u16, t: u8) -> Element
    requires coded { Coded code }
    requires no_part { code ≡ 18 → x < 256 }
    ensures { result ≡ element_by code x t }
{
    match code {
        INPUT => Element::Input,
        OUTPUT => Element::Output,
        REGISTER => Element::Register(x),
        ASYNC_ROM => Element::Async(Memory { table: t }),
        CLOCKED_ROM => Element::Clocked(Memory { table: t }, x),
        _ => Element::Gate(op_by((code - GATE) as u8, x)),
    }
}

// The element of node v.
pub fn element_of(file: &[u8], net: &[u16], v: usize) -> Element
    requires circuit { Circuit file.now net.now }
    requires node { v < size (net_of file.now net.now) }
    ensures { result ≡ element_at (net_of file.now net.now) v }
{
    let code = code_of(file, net, v);
    let number = number_of(file, net, v) as u16;
    let table = table_of(file, net, v) as u8;
    element_by(code, number, table)
}

// Node v.
pub fn node_of(file: &[u8], net: &[u16], v: usize) -> Node
    requires circuit { Circuit file.now net.now }
    requires node { v < size (net_of file.now net.now) }
    ensures { result ≡ node_at (net_of file.now net.now) v }
{
    let first = source_of(file, net, v, 0) as u16;
    let second = source_of(file, net, v, 1) as u16;
    let third = source_of(file, net, v, 2) as u16;
    Node {
        element: element_of(file, net, v),
        width: width_of(file, net, v) as u8,
        sources: [first, second, third],
    }
}
