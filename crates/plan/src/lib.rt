// Where everything goes in the rewritten netlist, and which words its ROMs take over: document 01, "Leads and the rewritten file".
#![tactic(auto)]

mod entries;
pub mod registers;

ghost use Rattle.std.specs.Prelude.{◌≡◌, ◌*◌, length};
ghost use Rattle.netlist.specs.Net.{size, in_clock};
ghost use Rattle.circuit.specs.Order.{Complete};
ghost use Rattle.evaluate.specs.Clock.{Inside};
ghost use Rattle.first_clocks.specs.Wanted.{WordsAt, Taken};
ghost use Rattle.retiming.specs.Modes.{mode_timing};
ghost use Rattle.wiring.specs.Wiring.{Timed, froms_in, clocks_in, Entered};
ghost use Rattle.plan.specs.Plan.{PlanLaid};

use circuit::Netlist;
use entries::place_entries;
use first_clocks::first_words;
use registers::lay_wires;
use retiming::Mode;
use wires::TIMING;
use wiring::links::link_wires;
use wiring::{CLOCKS, FROMS, HEADS, NONE, WIRES, enter_wires};

// The plan's area. Of each node of the rewritten netlist the old node whose width it has, the word of an entry, and the clock of a register's reset word;
// where the entries of each old node begin; and what each node reads, three places to a node.
pub const OWNERS: usize = 0;

pub const WORDS: usize = 1024;

pub const LATE: usize = 2048;

pub const FIRSTS: usize = 3072;

pub const SOURCES: usize = 4096;

pub const PLAN: usize = 7168;

// A word for each wire: the reset word that its root needs for it.
pub const COPIED: usize = 3072;

// The mode, how many nodes come before the registers, and how many there are. Over 1,024 it is only known that there are so many, and no Option says it: make_plan
// cannot fail (its clause `laid` speaks of such a total), and its steps, which stop there, count on from what they are given.
#[derive(Clone, Copy)]
pub struct Plan {
    pub mode: Mode,
    pub entries: usize,
    pub total: usize,
}

// What the plan is made from: a netlist in a mode, its timing, its wires, and for each wire the reset word that its root needs.
#[derive(Clone, Copy)]
pub struct Retiming<'a> {
    pub net: &'a Netlist<'a, 'a>,
    pub mode: Mode,
    pub timing: &'a [u16; TIMING],
    pub wires: &'a [u16; WIRES],
    pub copied: &'a [u16; COPIED],
}

// Operand p of entry e.
#[derive(Clone, Copy)]
pub struct Operand {
    pub e: usize,
    pub p: usize,
}

// The words that the roots of the wires need as reset words.
fn copied_words(
    net: &Netlist,
    mode: Mode,
    timing: &[u16; TIMING],
    start: &[u16; 1024],
    wires: &[u16; WIRES],
    queue: &mut [u16; PLAN],
    copied: &mut [u16; COPIED],
)
    requires timed { let N = net.now.net in Timed N (mode_timing mode N) timing.now }
    requires inside { Inside net.now.net }
    requires complete { Complete in_clock net.now.net net.now.order }
    requires start { WordsAt net.now.net 0 start.now }
    requires entered { let N = net.now.net in Entered N (mode_timing mode N) wires.now (3 * size N) }
    ensures { Taken net.now.net (clocks_in wires.now) (froms_in wires.now) copied.old copied.new }
{
    let clocks = &wires[CLOCKS..HEADS];
    let wanted = &wires[FROMS..CLOCKS];
    first_words(net, timing, start, clocks, wanted, queue, copied);
}

// Plans the new netlist of a mode but for the gates of a late start, from the words of the first clock. Where it has more than 1,024 nodes nothing is said of the area.
pub fn make_plan(
    net: &Netlist,
    mode: Mode,
    timing: &[u16; TIMING],
    start: &[u16; 1024],
    wires: &mut [u16],
    plan: &mut [u16; PLAN],
) -> Plan
    requires timed { let N = net.now.net in Timed N (mode_timing mode N) timing.now }
    requires inside { Inside net.now.net }
    requires complete { Complete in_clock net.now.net net.now.order }
    requires start { WordsAt net.now.net 0 start.now }
    requires wires { length wires.old ≡ 10240 }
    ensures laid { let N = net.now.net in PlanLaid N (mode_timing mode N) plan.new result.entries result.total }
    ensures mode { result.mode ≡ mode }
{
    // A slice, since the caller lends a part of the new circuit's words.
    let wires = wires.as_mut_array::<WIRES>().unwrap();
    wires.fill(NONE);
    let mut copied = [0u16; COPIED];
    enter_wires(net, mode, timing, wires);
    // Until there is a plan, its area is the queue's.
    copied_words(net, mode, timing, start, wires, plan, &mut copied);
    plan.fill(NONE);
    // No clock of a wire is asked for any more: the links take their place.
    link_wires(wires, 3 * net.node_count());
    let from = Retiming {
        net,
        mode,
        timing,
        wires,
        copied: &copied,
    };
    let entries = place_entries(&from, plan);
    let total = if 1024 < entries {
        entries
    } else {
        lay_wires(&from, entries, plan)
    };
    Plan {
        mode,
        entries,
        total,
    }
}
