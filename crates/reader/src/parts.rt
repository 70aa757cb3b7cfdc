// A node's parts, by its code.
ghost use Rattle.std.specs.Prelude.{◌≡◌, ◌<◌, ◌≤◌};
ghost use Rattle.netlist.specs.declared.Element.{Element};
ghost use Rattle.netlist.specs.Net.{operands};
ghost use Rattle.netlist.specs.NodeField.{first_source};
ghost use Rattle.netlist.specs.ScanLaws.{NodeAt};
ghost use Rattle.netlist.specs.File.{node_in};
ghost use Rattle.circuit.specs.Code.{code_of};
ghost use Rattle.reader.specs.Parts.{Holds};

use circuit::codes::{ASYNC_ROM, CLOCKED_ROM, CONSTANT, GATE, INPUT, PART, REGISTER};
use nodes::kind::Kind;
use nodes::{Sources, sources_from};
use words::{operand_count, word_at};

// The code of the node whose field stands at an offset: its kind, and of a gate 8 more than its operation.
pub fn code_at(file: &[u8], at: usize) -> usize
    requires { NodeAt file.now at }
    ensures code { result ≡ code_of (node_in file.now at).element }
    ensures few { result < 20 }
{
    let kind = file[at + 3];
    if kind == Kind::Gate as u8 {
        GATE + file[at + 5] as usize
    } else {
        kind as usize
    }
}

// How many sources it has: a gate as many as the array says of its operation; what is neither a gate nor an input port has one.
pub fn count_by_code(code: usize) -> usize
    requires { code < 20 }
    ensures count { (e : Element) → code ≡ code_of e → result ≡ operands e }
    ensures few { result ≤ 3 }
{
    if GATE <= code {
        return operand_count(code - GATE);
    }
    if code == INPUT { 0 } else { 1 }
}

fn first_by_code(code: usize) -> usize
    ensures first { (e : Element) → code ≡ code_of e → result ≡ first_source e }
    ensures few { result ≤ 3 }
{
    if code <= CLOCKED_ROM { 2 } else { 3 }
}

// Its sources, of which n count.
pub fn sources_at(file: &[u8], at: usize, code: usize, n: usize) -> Sources
    requires node { NodeAt file.now at }
    requires code { code ≡ code_of (node_in file.now at).element }
    requires count { n ≡ operands (node_in file.now at).element }
    ensures { result ≡ (node_in file.now at).sources }
{
    let from = at + 3 + first_by_code(code);
    sources_from(file, from, n)
}

// The number that a node holds, and its table; 0 where it has none.
#[derive(Clone, Copy)]
pub struct Held {
    pub number: u16,
    pub table: u16,
}

pub fn held_at(file: &[u8], at: usize, code: usize) -> Held
    requires node { NodeAt file.now at }
    requires code { code ≡ code_of (node_in file.now at).element }
    ensures { Holds (node_in file.now at).element result.number result.table }
{
    match code {
        REGISTER => Held {
            number: word_at(file, at + 7),
            table: 0,
        },
        ASYNC_ROM => Held {
            number: 0,
            table: file[at + 7] as u16,
        },
        CLOCKED_ROM => Held {
            number: word_at(file, at + 8),
            table: file[at + 7] as u16,
        },
        CONSTANT => Held {
            number: word_at(file, at + 6),
            table: 0,
        },
        PART => Held {
            number: file[at + 8] as u16,
            table: 0,
        },
        _ => Held {
            number: 0,
            table: 0,
        },
    }
}
