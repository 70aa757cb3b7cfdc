// The file of a circuit: how long it is, and its writing, field by field at an offset that is carried along.
#![tactic(auto)]

ghost use Rattle.std.specs.Prelude.{◌≡◌, ◌++◌, ◌+◌, ◌≤◌, ◌<◌, length, drop};
ghost use Rattle.lists.specs.Lists.{concat_map};
ghost use Rattle.netlist.specs.Net.{size, node_at};
ghost use Rattle.netlist.specs.File.{table_bytes, node_bytes, encode};
ghost use Rattle.netlist.specs.Offsets.{fields_of, field_at, offset_of};
ghost use Rattle.writer.specs.Written.{Puts};
ghost use Rattle.saving.specs.Lengths.{own_length};

use circuit::Netlist;
use netlist::Element;
use words::Op;
use writer::{copy_table, put_end, put_head, put_node, table_length};

// How many bytes the fields of the tables take.
fn tables_length(net: &Netlist) -> usize
    ensures length { result ≡ length (concat_map table_bytes net.now.net.tables) }
    ensures few { result ≤ 1048608 }
{
    let n = net.table_count();
    let mut sum: usize = 0;
    for k in 0..n {
        sum += table_length(net.file(), net.table_place(k));
    }
    sum
}

// How many bytes a node holds beside kind, width and sources: a register its reset word, a ROM its table, a clocked one both;
// a gate its operation, with it a constant its word and a part its lowest bit.
fn own_length(e: Element) -> usize
    ensures own { result ≡ own_length e }
    ensures few { result ≤ 3 }
{
    match e {
        Element::Input | Element::Output => 0,
        Element::Register(_) => 2,
        Element::Async(_) => 1,
        Element::Clocked(_, _) => 3,
        Element::Gate(Op::Constant(_)) => 3,
        Element::Gate(Op::Part(_)) => 2,
        Element::Gate(_) => 1,
    }
}

// How long the field of node v is.
fn node_length(net: &Netlist, v: usize) -> usize
    requires { v < size net.now.net }
    ensures length { result ≡ length (node_bytes (node_at net.now.net v)) }
    ensures few { result ≤ 12 }
{
    // For the proof, that a record has three sources: it does nothing.
    let _words = net.parts();
    5 + own_length(net.element(v)) + 2 * net.source_count(v)
}

// How many bytes the fields of the nodes take.
fn nodes_length(net: &Netlist) -> usize
    ensures length { result ≡ length (concat_map node_bytes net.now.net.nodes) }
    ensures few { result ≤ 12288 }
{
    let n = net.node_count();
    let mut sum: usize = 0;
    for v in 0..n {
        sum += node_length(net, v);
    }
    sum
}

// How long the file is.
pub fn circuit_length(net: &Netlist) -> usize
    ensures { result ≡ length (encode net.now.net) }
{
    7 + tables_length(net) + nodes_length(net)
}

// How many fields the file has: the head, the tables, the nodes, the end.
fn field_count(net: &Netlist) -> usize
    ensures length { result ≡ length (fields_of net.now.net) }
    ensures few { result ≤ 1042 }
{
    2 + net.table_count() + net.node_count()
}

// Writes field k at the offset that is carried along, and gives the next one: before each field it is the sum of the whole lengths of the fields before.
// A field by its number, and no loop for each kind of field: that is how docs/notes/T-04.md promises it.
fn put_field(net: &Netlist, k: usize, out: &mut [u8], at: usize) -> usize
    requires field { k < length (fields_of net.now.net) }
    requires here { at ≡ offset_of net.now.net k }
    requires room { length (encode net.now.net) ≤ length out.old }
    ensures put { Puts out.old at (field_at net.now.net k) result out.new }
    ensures next { result ≡ offset_of net.now.net (k + 1) }
{
    if k == 0 {
        return put_head(out, at);
    }
    let tables = net.table_count();
    if k <= tables {
        return copy_table(net.file(), net.table_place(k - 1), out, at);
    }
    let v = k - 1 - tables;
    if v < net.node_count() {
        return put_node(out, at, net.node(v));
    }
    put_end(out, at)
}

// Writes the file at the front of the output, where the bytes past it stay, and gives the offset behind the end field, which is its length.
pub fn write_circuit(net: &Netlist, out: &mut [u8]) -> usize
    requires { length (encode net.now.net) ≤ length out.old }
    ensures length { result ≡ length (encode net.now.net) }
    ensures out { let N = net.now.net in out.new ≡ encode N ++ drop (length (encode N)) out.old }
{
    let fields = field_count(net);
    let mut at: usize = 0;
    for k in 0..fields {
        at = put_field(net, k, out, at);
    }
    at
}
