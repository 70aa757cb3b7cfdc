// The opened netlist in one slice of words: what it tells of a node and of a table, and how a node is put. Every pass goes by it.
#![tactic(auto)]

pub mod codes;
mod opened;
pub mod renumber;
mod rows;
mod tables;

ghost use Rattle.std.specs.Prelude.{◌≡◌, ◌+◌, ◌*◌, ◌^◌, ◌<◌, ◌≤◌, [], length, get_or, set, eqb};
ghost use Rattle.netlist.specs.Net.{no_table, spelled, size, element_at, width_at, source, operands, count_of};
ghost use Rattle.netlist.specs.ScanLaws.{TableAt};
ghost use Rattle.netlist.specs.File.{table_in};
ghost use Rattle.circuit.specs.Code.{code_of, number_or, table_or};
ghost use Rattle.circuit.specs.Circuit.{circuit_words, field, row_node, nodes_of, tables_of, order_of, net_of, Fits, Formed, Circuit};
ghost use Rattle.circuit.specs.Building.{Built, Pushed};

pub use opened::Netlist;
use tables::word_in;

// Where the rows begin, and the words of a row.
const ROWS: usize = 64;

const ROW: usize = 10;

// The words of a row.
const CODE: usize = 0;

const WIDTH: usize = 1;

const COUNT: usize = 2;

const SOURCES: usize = 3;

const NUMBER: usize = 6;

const TABLE: usize = 7;

const TURN: usize = 8;

// A circuit of 1,024 nodes.
pub const WORDS: usize = 10304;

// What a row says of its node: the code of its element, its width, how many sources count, three sources, the number that it holds, its table.
#[derive(Clone, Copy)]
pub struct Row {
    pub code: u16,
    pub width: u16,
    pub count: u16,
    pub sources: [u16; 3],
    pub number: u16,
    pub table: u16,
}

// Word k of node v.
fn field_of(file: &[u8], net: &[u16], v: usize, k: usize) -> usize
    requires circuit { Circuit file.now net.now }
    requires node { v < size (net_of file.now net.now) }
    requires few { k < 10 }
    ensures word { result ≡ field net.now v k }
    ensures few { result ≤ 65535 }
{
    net[ROWS + ROW * v + k] as usize
}

// The number of nodes.
fn node_count(file: &[u8], net: &[u16]) -> usize
    requires { Circuit file.now net.now }
    ensures count { result ≡ size (net_of file.now net.now) }
    ensures few { result ≤ 1024 }
{
    net[0] as usize
}

fn code_of(file: &[u8], net: &[u16], v: usize) -> usize
    requires circuit { Circuit file.now net.now }
    requires node { v < size (net_of file.now net.now) }
    ensures code { result ≡ code_of (element_at (net_of file.now net.now) v) }
    ensures few { result < 20 }
{
    field_of(file, net, v, CODE)
}

fn width_of(file: &[u8], net: &[u16], v: usize) -> usize
    requires circuit { Circuit file.now net.now }
    requires node { v < size (net_of file.now net.now) }
    ensures width { result ≡ width_at (net_of file.now net.now) v }
    ensures few { result < 256 }
{
    field_of(file, net, v, WIDTH)
}

// How many sources node v has.
fn source_count(file: &[u8], net: &[u16], v: usize) -> usize
    requires circuit { Circuit file.now net.now }
    requires node { v < size (net_of file.now net.now) }
    ensures count { result ≡ operands (element_at (net_of file.now net.now) v) }
    ensures few { result ≤ 3 }
{
    field_of(file, net, v, COUNT)
}

// Source p of node v.
fn source_of(file: &[u8], net: &[u16], v: usize, p: usize) -> usize
    requires circuit { Circuit file.now net.now }
    requires node { v < size (net_of file.now net.now) }
    requires place { p < 3 }
    ensures source { result ≡ source (net_of file.now net.now) v p }
    ensures few { result ≤ 65535 }
{
    field_of(file, net, v, SOURCES + p)
}

// The number that node v holds, and its table: what they are where it has one.
fn number_of(file: &[u8], net: &[u16], v: usize) -> usize
    requires circuit { Circuit file.now net.now }
    requires node { v < size (net_of file.now net.now) }
    ensures number { result ≡ number_or result (element_at (net_of file.now net.now) v) }
    ensures few { result ≤ 65535 }
{
    field_of(file, net, v, NUMBER)
}

fn table_of(file: &[u8], net: &[u16], v: usize) -> usize
    requires circuit { Circuit file.now net.now }
    requires node { v < size (net_of file.now net.now) }
    ensures table { result ≡ table_or result (element_at (net_of file.now net.now) v) }
    ensures few { result < 256 }
{
    field_of(file, net, v, TABLE)
}

// The node whose turn comes at place i of the order.
fn order_of(file: &[u8], net: &[u16], i: usize) -> usize
    requires circuit { Circuit file.now net.now }
    requires node { i < size (net_of file.now net.now) }
    ensures turn { result ≡ get_or (order_of net.now) i 0 }
    ensures few { result ≤ 65535 }
{
    field_of(file, net, i, TURN)
}

// Writes place i of the order: the circuit shows the same netlist. (Whoever writes is lent the words, here and below: of what a value with a model holds behind a
// `&mut`, its lender would know nothing afterwards.)
pub fn put_order(file: &[u8], net: &mut [u16], i: usize, x: u16)
    requires circuit { Circuit file.now net.old }
    requires node { i < size (net_of file.now net.old) }
    ensures net { net_of file.now net.new ≡ net_of file.now net.old }
    ensures circuit { Circuit file.now net.new }
    ensures order { order_of net.new ≡ set (order_of net.old) i x }
{
    net[ROWS + ROW * i + TURN] = x;
}

// How many nodes are of a kind.
fn count_kind(file: &[u8], net: &[u16], kind: usize) -> usize
    requires { Circuit file.now net.now }
    ensures count { result ≡ count_of (λ e. eqb (code_of e) kind) (net_of file.now net.now) }
    ensures few { result ≤ 1024 }
{
    let n = node_count(file, net);
    let mut count: usize = 0;
    for v in 0..n {
        count += (code_of(file, net, v) == kind) as usize;
    }
    count
}

// The number of tables.
fn table_count(file: &[u8], net: &[u16]) -> usize
    requires { Circuit file.now net.now }
    ensures places { result ≡ length (tables_of net.now) }
    ensures count { result ≡ length (net_of file.now net.now).tables }
    ensures few { result ≤ 16 }
{
    net[1] as usize
}

// The address bits of table k, and the width of its words; past the last 1, as the definitions say. (Two functions: one of both would have a clause by cases.)
fn address_bits(file: &[u8], net: &[u16], k: usize) -> u8
    requires { Circuit file.now net.now }
    ensures { result ≡ (get_or (net_of file.now net.now).tables k no_table).bits }
{
    if k < table_count(file, net) {
        file[net[2 + k] as usize + 3]
    } else {
        1
    }
}

fn word_width(file: &[u8], net: &[u16], k: usize) -> u8
    requires { Circuit file.now net.now }
    ensures { result ≡ (get_or (net_of file.now net.now).tables k no_table).wide }
{
    if k < table_count(file, net) {
        file[net[2 + k] as usize + 4]
    } else {
        1
    }
}

// Where the field of table k stands in the file.
fn table_place(file: &[u8], net: &[u16], k: usize) -> usize
    requires circuit { Circuit file.now net.now }
    requires table { k < length (net_of file.now net.now).tables }
    ensures stands { TableAt file.now result }
    ensures table { table_in file.now result ≡ get_or (net_of file.now net.now).tables k no_table }
{
    net[2 + k] as usize
}

// The word of table k at an address: there is one for every address.
fn table_word(file: &[u8], net: &[u16], k: usize, a: usize) -> u16
    requires circuit { Circuit file.now net.now }
    requires table { k < length (net_of file.now net.now).tables }
    requires address { a < 2 ^ (get_or (net_of file.now net.now).tables k no_table).bits }
    ensures { result ≡ get_or (spelled (get_or (net_of file.now net.now).tables k no_table)) a 0 }
{
    word_in(file, table_place(file, net, k), a)
}

// The head of a circuit with no node, and the tables of another, at the same places of the file.
pub fn copy_head(file: &[u8], net: &[u16], new: &mut [u16])
    requires circuit { Circuit file.now net.now }
    requires room { circuit_words ≤ length new.old }
    ensures { Built (tables_of net.now) [] new.new }
{
    let n = table_count(file, net);
    new[0] = 0;
    new[1] = n as u16;
    for t in 0..n {
        new[2 + t] = net[2 + t];
    }
}

// Puts node v after the v nodes that the circuit shows.
pub fn push_row(net: &mut [u16], v: usize, row: Row)
    requires formed { Formed net.old }
    requires place { v ≡ length (nodes_of net.old) }
    requires few { v < 1024 }
    requires fits { Fits row }
    ensures { Pushed net.old (row_node row) net.new }
{
    let at = ROWS + ROW * v;
    let three = row.sources;
    net[at] = row.code;
    net[at + WIDTH] = row.width;
    net[at + COUNT] = row.count;
    net[at + SOURCES] = three[0];
    net[at + 4] = three[1];
    net[at + 5] = three[2];
    net[at + NUMBER] = row.number;
    net[at + TABLE] = row.table;
    net[0] = (v + 1) as u16;
}
