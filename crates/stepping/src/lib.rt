// One clock over a schedule: its lines one after the other, on a row of words that has a place for each.
#![tactic(auto)]

pub mod clock;

ghost use Rattle.std.specs.Prelude.{◌≡◌, ℕ, ◌+◌, ◌<◌, ◌≤◌, length, get_or};
ghost use Rattle.netlist.specs.Checks.{WellFormed};
ghost use Rattle.schedule.specs.Lines.{schedule_words, code_on, place_on, Scheduled};
ghost use Rattle.stepping.specs.Step.{line_word, FitTo, Stepped, gate_on, GateAsks, chosen_on, OnLine, OnRun};

use circuit::Netlist;
use circuit::codes::{
    ADD, AND, ASYNC_ROM, CHOOSE, CONSTANT, EQUAL, GATE, JOIN, LESS, NOT, OR, PART, SUBTRACT, XOR,
};
use gates::gate;
use nodes::plain_op;
use schedule::{CODE, HELD, PLACES, RUN_END, Sizes, WIDTH, part_of};
use words::Op;

// The word of an operation on line i.
fn gate_word(schedule: &[u16], op: Op, i: usize, words: &[u16]) -> u16
    requires schedule { schedule_words ≤ length schedule.now }
    requires line { i < 2048 }
    requires words { 2048 ≤ length words.now }
    requires asks { GateAsks schedule.now op i words.now }
    ensures { result ≡ gate_on schedule.now op i words.now }
{
    let first = words[part_of(schedule, i, PLACES)];
    let second = words[part_of(schedule, i, PLACES + 1)];
    let third = words[part_of(schedule, i, PLACES + 2)];
    let width = part_of(schedule, i, WIDTH) as u8;
    gate(op, width, width, first, second, third)
}

// The word of an asynchronous ROM on line i.
fn rom_word(net: &Netlist, schedule: &[u16], i: usize, words: &[u16]) -> u16
    requires formed { WellFormed net.now.net }
    requires line { OnLine net.now.net schedule.now words.now i }
    requires rom { code_on schedule.now i ≡ 3 }
    ensures { result ≡ line_word net.now.net schedule.now words.now i }
{
    let address = words[part_of(schedule, i, PLACES)];
    net.table_word(part_of(schedule, i, HELD), address as usize)
}

// The word of a choose gate on line i: the selector's word tells which of the two other places is read. Selectors follow no pattern, so there is no branch on it.
fn choose_word(schedule: &[u16], i: usize, words: &[u16]) -> u16
    requires schedule { schedule_words ≤ length schedule.now }
    requires line { i < 2048 }
    requires words { 2048 ≤ length words.now }
    requires places { (p : ℕ) → p < 3 → place_on schedule.now i p < 2048 }
    requires selector { get_or words.now (place_on schedule.now i 0) 0 < 2 }
    ensures { result ≡ chosen_on schedule.now i words.now }
{
    let selector = words[part_of(schedule, i, PLACES)] as usize;
    words[part_of(schedule, i, PLACES + 2 - selector)]
}

// The word of line i, whose code is known.
fn line_word(net: &Netlist, schedule: &[u16], code: usize, i: usize, words: &[u16]) -> u16
    requires formed { WellFormed net.now.net }
    requires line { OnLine net.now.net schedule.now words.now i }
    requires code { code ≡ code_on schedule.now i }
    ensures { result ≡ line_word net.now.net schedule.now words.now i }
{
    match code {
        ASYNC_ROM => rom_word(net, schedule, i, words),
        CONSTANT => {
            let value = part_of(schedule, i, HELD) as u16;
            gate_word(schedule, Op::Constant(value), i, words)
        }
        CHOOSE => choose_word(schedule, i, words),
        PART => {
            let low = part_of(schedule, i, HELD) as u8;
            gate_word(schedule, Op::Part(low), i, words)
        }
        _ => {
            let op = plain_op((code - GATE) as u8);
            gate_word(schedule, op, i, words)
        }
    }
}

// The lines from one place up to another, all of code C. It is a const parameter, so that the compiler makes a loop for each code that does nothing else.
fn run_of<const C: usize>(
    net: &Netlist,
    schedule: &[u16],
    from: usize,
    to: usize,
    words: &mut [u16],
)
    requires formed { WellFormed net.now.net }
    requires run { OnRun net.now.net schedule.now words.old C from to }
    ensures { Stepped net.now.net schedule.now from to words.old words.new }
{
    for i in from..to {
        words[i] = line_word(net, schedule, C, i, words);
    }
}

// The lines from one place up to another, all of the first one's code.
fn step_run(net: &Netlist, schedule: &[u16], from: usize, to: usize, words: &mut [u16])
    requires formed { WellFormed net.now.net }
    requires some { from < to }
    requires run { OnRun net.now.net schedule.now words.old (code_on schedule.now from) from to }
    ensures { Stepped net.now.net schedule.now from to words.old words.new }
{
    match part_of(schedule, from, CODE) {
        ASYNC_ROM => run_of::<ASYNC_ROM>(net, schedule, from, to, words),
        CONSTANT => run_of::<CONSTANT>(net, schedule, from, to, words),
        NOT => run_of::<NOT>(net, schedule, from, to, words),
        AND => run_of::<AND>(net, schedule, from, to, words),
        OR => run_of::<OR>(net, schedule, from, to, words),
        XOR => run_of::<XOR>(net, schedule, from, to, words),
        ADD => run_of::<ADD>(net, schedule, from, to, words),
        SUBTRACT => run_of::<SUBTRACT>(net, schedule, from, to, words),
        EQUAL => run_of::<EQUAL>(net, schedule, from, to, words),
        LESS => run_of::<LESS>(net, schedule, from, to, words),
        CHOOSE => run_of::<CHOOSE>(net, schedule, from, to, words),
        PART => run_of::<PART>(net, schedule, from, to, words),
        _ => run_of::<JOIN>(net, schedule, from, to, words),
    }
}

// All lines behind those that are loaded, run by run. (Schedule and words are slices: they may be longer, where an array would ask for just so many words.)
pub fn step_lines(net: &Netlist, schedule: &[u16], sizes: Sizes, words: &mut [u16])
    requires formed { WellFormed net.now.net }
    requires scheduled { Scheduled net.now.net schedule.now sizes }
    requires words { 2048 ≤ length words.old }
    requires fit { FitTo net.now.net schedule.now words.old (sizes.inputs + sizes.held) }
    ensures { Stepped net.now.net schedule.now (sizes.inputs + sizes.held) sizes.lines words.old words.new }
{
    // A loop by hand: it jumps from run to run.
    let mut i = sizes.inputs + sizes.held;
    while i < sizes.lines {
        let end = part_of(schedule, i, RUN_END);
        step_run(net, schedule, i, end, words);
        i = end;
    }
}
