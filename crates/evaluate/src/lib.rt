// The words of all nodes in one clock: the lent rows of words are loaded, then each node is evaluated after what it reads.
#![tactic(auto)]

pub mod lent;

ghost use Rattle.std.specs.Prelude.{◌≡◌, true, false, ◌^◌, ◌<◌, ◌≤◌, length, get_or};
ghost use Rattle.netlist.specs.Net.{size, element_at, width_at, source, is_memory, holds_word, contents_at, in_clock};
ghost use Rattle.netlist.specs.Checks.{WellFormed};
ghost use Rattle.circuit.specs.Order.{Complete};
ghost use Rattle.evaluate.specs.Rows.{row_test, RowFits};
ghost use Rattle.evaluate.specs.Clock.{loaded, node_word, Inside, OperandsFit, Evaluated};
ghost use Rattle.evaluate.specs.Next.{next_word, WordsFit};

use areas::at_or;
use circuit::Netlist;
use circuit::codes::{CLOCKED_ROM, CONSTANT, GATE, INPUT, OUTPUT, PART, REGISTER};
use gates::gate;
use nodes::plain_op;
use words::Op;

// The rows of words that a host lends: one word for each node of a class, by node number.
#[derive(Clone, Copy)]
pub enum Row {
    Inputs,
    Outputs,
    State,
}

// The word of node v's table at an address.
fn memory_word(net: &Netlist, v: usize, address: u16) -> u16
    requires formed { WellFormed net.now.net }
    requires node { v < size net.now.net }
    requires memory { is_memory (element_at net.now.net v) ≡ true }
    requires address { let N = net.now.net in address < 2 ^ width_at N (source N v 0) }
    ensures { result ≡ get_or (contents_at net.now.net v) address 0 }
{
    net.table_word(net.table(v), address as usize)
}

// Whether node v holds a word from one clock to the next: a register, a clocked ROM.
fn holds_word(net: &Netlist, v: usize) -> bool
    requires { v < size net.now.net }
    ensures { result ≡ holds_word (element_at net.now.net v) }
{
    net.is_register(v) | net.is_clocked_rom(v)
}

// Whether node v keeps the word that was loaded: an input port, a register, a clocked ROM. By the code, as `node_word` goes on with those that do not.
#[tactic(auto, using(crate::specs::Coded::loaded_code, crate::specs::Coded::other_code))]
fn is_loaded(net: &Netlist, v: usize) -> bool
    requires { v < size net.now.net }
    ensures { result ≡ loaded (element_at net.now.net v) }
{
    match net.code(v) {
        INPUT | REGISTER | CLOCKED_ROM => true,
        _ => false,
    }
}

// The word of node v, which was not loaded, from its sources' words.
// Where an operation has fewer than three sources, what is read for the others does not count.
fn node_word(net: &Netlist, v: usize, words: &[u16]) -> u16
    requires formed { WellFormed net.now.net }
    requires inside { Inside net.now.net }
    requires node { v < size net.now.net }
    requires words { size net.now.net ≤ length words.now }
    requires fits { OperandsFit net.now.net words.now v }
    requires not_loaded { loaded (element_at net.now.net v) ≡ false }
    ensures { result ≡ node_word net.now.net words.now v }
{
    // Whatever an operation may ask for is read first, on no condition; a gate's width with the gate.
    let one = net.source(v, 0);
    let two = net.source(v, 1);
    let three = net.source(v, 2);
    let first = words[one];
    let second = words[two];
    let third = words[three];
    let below = net.width(two) as u8;
    let number = net.number(v) as u16;
    // By the code: by the element a run took 3.3 % longer than before, past the bar of 3 %.
    let code = net.code(v);
    // A port and a ROM by a test, apart from the gates: in one `match` with them each ROM of a chain cost a jump through a table, and rewriting long chains took up to 60 %
    // longer.
    if code < GATE {
        return if code == OUTPUT {
            first
        } else {
            memory_word(net, v, first)
        };
    }
    let op = match code {
        CONSTANT => Op::Constant(number),
        PART => Op::Part(number as u8),
        _ => plain_op((code - GATE) as u8),
    };
    let width = net.width(v) as u8;
    gate(op, width, below, first, second, third)
}

// Evaluates all nodes of a clock in the circuit's order, in which each comes after what it reads. What was loaded stays. (Words are a slice: there may be more.)
pub fn evaluate(net: &Netlist, words: &mut [u16])
    requires formed { WellFormed net.now.net }
    requires inside { Inside net.now.net }
    requires complete { Complete in_clock net.now.net net.now.order }
    requires words { size net.now.net ≤ length words.old }
    requires inputs { RowFits Row.Inputs net.now.net words.old }
    requires state { RowFits Row.State net.now.net words.old }
    ensures { Evaluated net.now.net words.old words.new }
{
    let (file, rows) = net.parts();
    evaluate_all(Netlist::of(file, rows), words);
}

// The same of a netlist by value: behind a reference, where file and rows stand would be read again after each word that is written.
fn evaluate_all(net: Netlist, words: &mut [u16])
    requires formed { WellFormed net.net }
    requires inside { Inside net.net }
    requires complete { Complete in_clock net.net net.order }
    requires words { size net.net ≤ length words.old }
    requires inputs { RowFits Row.Inputs net.net words.old }
    requires state { RowFits Row.State net.net words.old }
    ensures { Evaluated net.entry.net words.old words.new }
{
    for i in 0..net.node_count() {
        let v = net.turn(i);
        if !is_loaded(&net, v) {
            words[v] = node_word(&net, v, words);
        }
    }
}

// The word that a register or a clocked ROM holds after the clock: its source's, or the table's word at its source's.
pub fn next_word(net: &Netlist, v: usize, words: &[u16]) -> u16
    requires formed { WellFormed net.now.net }
    requires node { v < size net.now.net }
    requires holds { row_test Row.State net.now.net v ≡ true }
    requires fit { WordsFit net.now.net words.now }
    ensures { result ≡ next_word net.now.net words.now v }
{
    let word = at_or(words, net.source(v, 0), 0);
    if net.is_register(v) {
        word
    } else {
        memory_word(net, v, word)
    }
}
