// Writes the fields of a netlist file into a lent output. Each function writes at an offset and returns the offset after what it wrote:
// `Puts before at bytes next after` says both, and that no other byte of the output differs. Output and offset are no struct: once a value that
// holds the output behind a `&mut` is dropped, its caller knows nothing of the bytes, and the services' clauses name them.
#![tactic(auto)]

ghost use Rattle.std.specs.Prelude.{◌≡◌, [], ◌∷◌, ◌++◌, ◌+◌, ◌*◌, ◌≤◌, length};
ghost use Rattle.words.specs.Words.{bytes};
ghost use Rattle.netlist.specs.Field.{field};
ghost use Rattle.netlist.specs.NodeField.{op_number, source_bytes};
ghost use Rattle.netlist.specs.ScanLaws.{TableAt};
ghost use Rattle.netlist.specs.File.{table_in, table_bytes, node_bytes};
ghost use Rattle.nodes.specs.Kind.{kind_number};
ghost use Rattle.writer.specs.Written.{Puts};
ghost use Rattle.writer.specs.NodeWritten.{gate};

use netlist::{Element, Node};
use nodes::kind::Kind;
use nodes::{CONSTANT, PART, Sources, op_index, op_sources};
use words::{Op, word_at};

// The tags of the fields that are written here; a table's comes with it.
const HEAD: u8 = 1;

const NODE: u8 = 3;

const END: u8 = 4;

// One byte.
fn put_byte(out: &mut [u8], at: usize, x: u8) -> usize
    requires { at + 1 ≤ length out.old }
    ensures { Puts out.old at (x ∷ []) result out.new }
{
    out[at] = x;
    at + 1
}

// A word, high byte first.
fn put_word(out: &mut [u8], at: usize, w: u16) -> usize
    requires { at + 2 ≤ length out.old }
    ensures { Puts out.old at (bytes w) result out.new }
{
    let next = put_byte(out, at, (w / 256) as u8);
    put_byte(out, next, (w % 256) as u8)
}

// Bytes as they are. (One by one: `copy_from_slice` would have the library for C ask its host for a `memmove`.)
fn put_bytes(out: &mut [u8], at: usize, from: &[u8]) -> usize
    requires { at + length from.now ≤ length out.old }
    ensures { Puts out.old at from.now result out.new }
{
    let mut next = at;
    for i in 0..from.len() {
        next = put_byte(out, next, from[i]);
    }
    next
}

// What a field begins with: its tag and the length of its content.
fn put_start(out: &mut [u8], at: usize, tag: u8, size: u16) -> usize
    requires { at + 3 ≤ length out.old }
    ensures { Puts out.old at (tag ∷ bytes size) result out.new }
{
    let next = put_byte(out, at, tag);
    put_word(out, next, size)
}

// The head.
pub fn put_head(out: &mut [u8], at: usize) -> usize
    requires { at + 4 ≤ length out.old }
    ensures { Puts out.old at (field 1 (1 ∷ [])) result out.new }
{
    let next = put_start(out, at, HEAD, 1);
    put_byte(out, next, 1)
}

// The end.
pub fn put_end(out: &mut [u8], at: usize) -> usize
    requires { at + 3 ≤ length out.old }
    ensures { Puts out.old at (field 4 []) result out.new }
{
    put_start(out, at, END, 0)
}

// The field of the table that stands at an offset of a file: how long it is, and its writing. It is copied as it came, whichever its tag.
pub fn table_length(file: &[u8], from: usize) -> usize
    requires { TableAt file.now from }
    ensures length { result ≡ length (table_bytes (table_in file.now from)) }
    ensures few { result ≤ 65538 }
{
    3 + word_at(file, from + 1) as usize
}

pub fn copy_table(file: &[u8], from: usize, out: &mut [u8], at: usize) -> usize
    requires table { TableAt file.now from }
    requires room { at + length (table_bytes (table_in file.now from)) ≤ length out.old }
    ensures { Puts out.old at (table_bytes (table_in file.now from)) result out.new }
{
    let end = from + table_length(file, from);
    put_bytes(out, at, &file[from..end])
}

// The number of an operation.
fn op_number(op: Op) -> u8
    ensures { result ≡ op_number op }
{
    op_index(op) as u8
}

// What a node's field begins with: its tag, the length of its content, its kind and its width.
fn put_front(out: &mut [u8], at: usize, size: u16, kind: Kind, width: u8) -> usize
    requires { at + 5 ≤ length out.old }
    ensures { Puts out.old at (3 ∷ bytes size ++ kind_number kind ∷ width ∷ []) result out.new }
{
    let after_size = put_start(out, at, NODE, size);
    let after_kind = put_byte(out, after_size, kind.number());
    put_byte(out, after_kind, width)
}

// What the field of an element with one source begins with, unless it is a gate: the same, and then the source.
fn put_sourced(out: &mut [u8], at: usize, size: u16, kind: Kind, width: u8, source: u16) -> usize
    requires { at + 7 ≤ length out.old }
    ensures { Puts out.old at (3 ∷ bytes size ++ kind_number kind ∷ width ∷ bytes source) result out.new }
{
    let after_width = put_front(out, at, size, kind, width);
    put_word(out, after_width, source)
}

// What the field of a gate begins with: the same, and then the number of its operation.
fn put_operation(out: &mut [u8], at: usize, size: u16, width: u8, number: u8) -> usize
    requires { at + 6 ≤ length out.old }
    ensures { Puts out.old at (3 ∷ bytes size ++ 5 ∷ width ∷ number ∷ []) result out.new }
{
    let after_width = put_front(out, at, size, Kind::Gate, width);
    put_byte(out, after_width, number)
}

// The first n sources.
fn put_sources(out: &mut [u8], at: usize, sources: &[u16], n: usize) -> usize
    requires sources { n ≤ length sources.now }
    requires room { at + 2 * n ≤ length out.old }
    ensures { Puts out.old at (source_bytes n sources.now) result out.new }
{
    let mut next = at;
    for i in 0..n {
        next = put_word(out, next, sources[i]);
    }
    next
}

// The field of a gate: after its operation a constant has its word, a part its source and its lowest bit, any other its sources only.
fn put_gate(out: &mut [u8], at: usize, op: Op, width: u8, sources: Sources) -> usize
    requires { at + length (node_bytes (gate op width sources)) ≤ length out.old }
    ensures { Puts out.old at (node_bytes (gate op width sources)) result out.new }
{
    match op {
        Op::Constant(value) => {
            let after_op = put_operation(out, at, 5, width, CONSTANT);
            put_word(out, after_op, value)
        }
        Op::Part(lowest) => {
            let after_op = put_operation(out, at, 6, width, PART);
            let after_source = put_word(out, after_op, sources[0]);
            put_byte(out, after_source, lowest)
        }
        _ => {
            let n = op_sources(op);
            let after_op = put_operation(out, at, (3 + 2 * n) as u16, width, op_number(op));
            put_sources(out, after_op, &sources, n)
        }
    }
}

// The field of a node. It branches by the element once, since such a branch is seldom foreseen: an arm knows the length of the content, the
// kind, and what follows the width. An element that is no gate has one source at most.
pub fn put_node(out: &mut [u8], at: usize, node: Node) -> usize
    requires { at + length (node_bytes node) ≤ length out.old }
    ensures { Puts out.old at (node_bytes node) result out.new }
{
    let e = node.element;
    let width = node.width;
    let sources = node.sources;
    let first = sources[0];
    match e {
        Element::Input => put_front(out, at, 2, Kind::Input, width),
        Element::Output => put_sourced(out, at, 4, Kind::Output, width, first),
        Element::Register(reset) => {
            let after_source = put_sourced(out, at, 6, Kind::Register, width, first);
            put_word(out, after_source, reset)
        }
        Element::Async(m) => {
            let after_source = put_sourced(out, at, 5, Kind::Async, width, first);
            put_byte(out, after_source, m.table)
        }
        Element::Clocked(m, reset) => {
            let after_source = put_sourced(out, at, 7, Kind::Clocked, width, first);
            let after_table = put_byte(out, after_source, m.table);
            put_word(out, after_table, reset)
        }
        Element::Gate(op) => put_gate(out, at, op, width, sources),
    }
}
