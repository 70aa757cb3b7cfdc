// The first words of a netlist: it is run from reset, with all inputs 0, and the words that are wanted are taken clock by clock.
#![tactic(auto)]

mod holders;
mod queue;

ghost use Rattle.std.specs.Prelude.{◌≡◌, true, List, ℕ, ◌+◌, ◌<◌, ◌≤◌, length, get_or};
ghost use Rattle.netlist.specs.Net.{size, in_clock};
ghost use Rattle.netlist.specs.Checks.{WellFormed};
ghost use Rattle.circuit.specs.Order.{Complete};
ghost use Rattle.evaluate.specs.Clock.{Inside};
ghost use Rattle.evaluate.specs.Next.{next_word, WordsFit};
ghost use Rattle.evaluate.specs.Rows.{row_test, row_members};
ghost use Rattle.wires.specs.Traced.{roots_in, passes_in, AllTraced};
ghost use Rattle.first_clocks.specs.Queue.{dues_in, Queued, QueuedWithin};
ghost use Rattle.first_clocks.specs.Wanted.{OfNodes, Taken, WordsAt, OfClock, NamedFrom, Asked, TakenBefore};
ghost use Rattle.first_clocks.specs.ZeroRun.{Begins, Loads};
ghost use Rattle.first_clocks.specs.NextClock.{Renewed};

use areas::{at_or, put};
use circuit::Netlist;
use evaluate::lent::{in_row, row_members};
use evaluate::{Row, evaluate, next_word};
use holders::{Held, holder_at};
use queue::{enqueue, take_due};
use wires::{NEVER, TIMING};

// The queue's words: see queue.rt.
pub const QUEUE: usize = 7168;

// The word with which node v begins the first clock: its reset word.
fn first_word(net: &Netlist, v: usize) -> u16
    requires formed { WellFormed net.now.net }
    requires node { v < size net.now.net }
    ensures { Begins net.now.net 0 v result }
{
    if in_row(net, Row::State, v) {
        net.number(v) as u16
    } else {
        0
    }
}

// Loads the words after reset.
fn load_reset(net: &Netlist, words: &mut [u16])
    requires formed { WellFormed net.now.net }
    requires room { size net.now.net ≤ length words.old }
    ensures { Loads net.now.net 0 words.new }
{
    for v in 0..net.node_count() {
        put(words, v, first_word(net, v));
    }
}

// The words of the first clock. (A slice: there may be more.)
pub fn first_clock(net: &Netlist, words: &mut [u16])
    requires formed { WellFormed net.now.net }
    requires inside { Inside net.now.net }
    requires complete { Complete in_clock net.now.net net.now.order }
    requires room { size net.now.net ≤ length words.old }
    ensures { WordsAt net.now.net 0 words.new }
{
    load_reset(net, words);
    evaluate(net, words);
}

// ---- clock by clock

// The words that registers and clocked ROMs hold after the clock, by node number.
fn hold_next(net: &Netlist, members: &[u16], words: &[u16], next: &mut [u16; 1024])
    requires formed { WellFormed net.now.net }
    requires members { members.now ≡ row_members Row.State net.now.net }
    requires fit { WordsFit net.now.net words.now }
    ensures { let N = net.now.net in (v : ℕ) → v < size N → row_test Row.State N v ≡ true → get_or next.new v 0 ≡ next_word N words.now v }
{
    net.bounds();
    for member in members {
        let v = *member as usize;
        next[v] = next_word(net, v, words);
    }
}

// Puts them in the place of those of this clock.
fn store_next(members: &[u16], next: &[u16; 1024], words: &mut [u16; 1024])
    ensures { Renewed members.now next.now words.old words.new (length members.now) }
{
    for member in members {
        let v = *member as usize;
        put(words, v, at_or(next, v, 0));
    }
}

// The words of the next clock, over those of this one. Input ports keep their 0.
fn next_clock(net: &Netlist, members: &[u16], words: &mut [u16; 1024])
    requires formed { WellFormed net.now.net }
    requires inside { Inside net.now.net }
    requires complete { Complete in_clock net.now.net net.now.order }
    requires members { members.now ≡ row_members Row.State net.now.net }
    requires clock { OfClock net.now.net words.old }
    ensures { (t : ℕ) → WordsAt net.now.net t words.old → WordsAt net.now.net (t + 1) words.new }
{
    net.bounds();
    let mut next = [0u16; 1024];
    hold_next(net, members, words, &mut next);
    store_next(members, &next, words);
    evaluate(net, words);
}

// ---- the words that are wanted

// Every place that wants a word gets the number of the node that has it when it is due, and stands in the queue; gives how many clocks are run until all are due.
fn name_holders(
    net: &Netlist,
    timing: &[u16; TIMING],
    clocks: &[u16],
    wanted: &[u16],
    queue: &mut [u16],
    found: &mut [u16],
) -> usize
    requires formed { WellFormed net.now.net }
    requires traced { AllTraced net.now.net (roots_in timing.now) (passes_in timing.now) }
    requires nodes { OfNodes net.now.net clocks.now wanted.now }
    requires places { length clocks.now ≤ 3072 }
    requires room { length clocks.now ≤ length found.old }
    requires queue { length queue.old ≡ 7168 }
    ensures named { NamedFrom net.now.net clocks.now wanted.now found.old (dues_in queue.new) found.new result 0 }
    ensures queued { Queued queue.new 0 }
    ensures few { result ≤ 65535 }
{
    net.bounds();
    queue.fill(65535);
    let mut limit: usize = 0;
    let mut last = None;
    for k in (0..clocks.len()).rev() {
        let clock = clocks[k];
        if NEVER <= clock {
            continue;
        }
        let v = at_or(wanted, k, 0) as usize;
        let held = holder_at(net, timing, v, clock, last);
        let due = clock - held.back;
        found[k] = held.holder as u16;
        enqueue(due, k, queue);
        last = Some(held);
        limit = limit.max(due as usize + 1);
    }
    limit
}

// Runs on from the words of the first clock, and takes clock by clock what is due.
fn take_later(net: &Netlist, start: &[u16; 1024], queue: &[u16], limit: usize, found: &mut [u16])
    requires formed { WellFormed net.now.net }
    requires inside { Inside net.now.net }
    requires complete { Complete in_clock net.now.net net.now.order }
    requires start { WordsAt net.now.net 0 start.now }
    requires queue { length queue.now ≡ 7168 }
    requires queued { Queued queue.now 0 }
    requires within { QueuedWithin queue.now (length found.old) }
    requires some { 1 ≤ limit }
    requires few { limit ≤ 65535 }
    ensures { let N = net.now.net in let dues = dues_in queue.now in (clocks wanted before : List ℕ) → length clocks ≤ 3072 → Asked clocks dues
        → TakenBefore N clocks wanted dues before found.old 1 → TakenBefore N clocks wanted dues before found.new limit }
{
    let mut members = [0u16; 1024];
    let count = row_members(net, Row::State, &mut members);
    let mut words = *start;
    for t in 1..limit {
        next_clock(net, &members[..count], &mut words);
        take_due(queue, t as u16, &words, found);
    }
}

// Takes all words that are wanted, from the words of the first clock on. Place k wants the word of node wanted[k] at clock clocks[k], or none where that is NEVER or more.
// The queue is a work area, and a slice: it is lent as a part of a longer one.
pub fn first_words(
    net: &Netlist,
    timing: &[u16; TIMING],
    start: &[u16; 1024],
    clocks: &[u16],
    wanted: &[u16],
    queue: &mut [u16],
    found: &mut [u16],
)
    requires formed { WellFormed net.now.net }
    requires inside { Inside net.now.net }
    requires complete { Complete in_clock net.now.net net.now.order }
    requires traced { AllTraced net.now.net (roots_in timing.now) (passes_in timing.now) }
    requires nodes { OfNodes net.now.net clocks.now wanted.now }
    requires places { length clocks.now ≤ 3072 }
    requires room { length clocks.now ≤ length found.old }
    requires start { WordsAt net.now.net 0 start.now }
    requires queue { length queue.old ≡ 7168 }
    ensures { Taken net.now.net clocks.now wanted.now found.old found.new }
{
    let limit = name_holders(net, timing, clocks, wanted, queue, found);
    take_due(queue, 0, start, found);
    if 1 < limit {
        take_later(net, start, queue, limit, found);
    }
}
