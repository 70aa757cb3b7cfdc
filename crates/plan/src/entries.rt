// The nodes of the rewritten netlist that are no registers, in the file's order: an old node that is no register once, a ROM once for each different reset word.
ghost use Rattle.std.specs.Prelude.{◌≡◌, true, ◌+◌, ◌<◌, ◌≤◌};
ghost use Rattle.netlist.specs.Net.{size};
ghost use Rattle.wiring.specs.Wiring.{ends_in, clocks_in};
ghost use Rattle.wiring.specs.Links.{Chained};
ghost use Rattle.plan.specs.Areas.{owners_in, words_in, late_in, firsts_in};
ghost use Rattle.plan.specs.Entries.{EntryPut, Finds, Adds, AddsAll};
ghost use Rattle.plan.specs.Retiming.{net_of, timing_of, IsTimed, TellsWords, LinksRoms, PlacesTo, PlacesAll};

use super::{COPIED, FIRSTS, PLAN, Retiming, WORDS};
use wiring::{CLOCKS, HEADS, WIRES, stays};

// The first place from one on that has the word; where none up to another has it, that one.
pub(crate) fn find_from(plan: &[u16; PLAN], c: u16, from: usize, to: usize) -> usize
    requires range { from ≤ to }
    requires few { to ≤ 1024 }
    ensures { Finds (words_in plan.now) c from to result }
{
    for i in from..to {
        if plan[WORDS + i] == c {
            return i;
        }
    }
    to
}

// Adds the entry of node u with a word, where there is room for it.
fn add_entry(u: u16, word: u16, count: usize, plan: &mut [u16; PLAN]) -> usize
    requires { count ≤ 65535 }
    ensures count { result ≡ count + 1 }
    ensures put { EntryPut plan.old plan.new count u word }
{
    if count < 1024 {
        plan[count] = u;
        plan[WORDS + count] = word;
    }
    count + 1
}

// Adds the entry of ROM u with reset word c, unless there is one: its entries begin at `first`. Where there are more than 1,024 it is enough to know that.
fn add_copy(u: u16, c: u16, first: usize, count: usize, plan: &mut [u16; PLAN]) -> usize
    requires first { first ≤ count }
    requires count { count ≤ 65535 }
    ensures adds { Adds u c first count result (owners_in plan.old) (words_in plan.old) (owners_in plan.new) (words_in plan.new) }
    ensures late { late_in plan.new ≡ late_in plan.old }
    ensures firsts { firsts_in plan.new ≡ firsts_in plan.old }
{
    if 1024 < count || find_from(plan, c, first, count) < count {
        return count;
    }
    add_entry(u, c, count, plan)
}

// Adds the entries of ROM u: one for each different word that its wires want, from its first wire on.
fn add_copies(
    wires: &[u16; WIRES],
    copied: &[u16; COPIED],
    count: usize,
    u: u16,
    head: usize,
    first: usize,
    plan: &mut [u16; PLAN],
) -> usize
    requires first { first ≤ 1024 }
    requires count { count ≤ 3072 }
    requires chained { Chained (ends_in wires.now) (clocks_in wires.now) count u head }
    ensures adds { AddsAll u first count result (ends_in wires.now) copied.now (owners_in plan.old) (words_in plan.old) (owners_in plan.new) (words_in plan.new) }
    ensures late { late_in plan.new ≡ late_in plan.old }
    ensures firsts { firsts_in plan.new ≡ firsts_in plan.old }
{
    let mut next = first;
    let mut k = head;
    // From link to link: k jumps, so no range counts it.
    while k < count {
        next = add_copy(u, copied[k], first, next, plan);
        k = wires[CLOCKS + k] as usize;
    }
    next
}

// Adds the entries of node u, which stays.
fn place(from: &Retiming, u: usize, count: usize, plan: &mut [u16; PLAN]) -> usize
    requires node { u < size (net_of from.now) }
    requires stays { (timing_of from.now).keeps u ≡ true }
    requires count { count ≤ 1024 }
    requires words { TellsWords from.now }
    requires linked { LinksRoms from.now }
    requires placed { PlacesTo from.now plan.old u count }
    ensures placed { PlacesTo from.now plan.new (u + 1) result }
    ensures few { result ≤ 4096 }
    ensures late { late_in plan.new ≡ late_in plan.old }
    ensures firsts { firsts_in plan.new ≡ firsts_in plan.old }
{
    from.net.bounds();
    if from.net.is_memory(u) {
        let head = from.wires[HEADS + u] as usize;
        let all = 3 * from.net.node_count();
        add_copies(from.wires, from.copied, all, u as u16, head, count, plan)
    } else if from.net.is_register(u) {
        count
    } else {
        add_entry(u as u16, 0, count, plan)
    }
}

// Adds the entries of all nodes, and keeps where those of each begin. It gives up where there are more than 1,024.
pub(crate) fn place_entries(from: &Retiming, plan: &mut [u16; PLAN]) -> usize
    requires timed { IsTimed from.now }
    requires words { TellsWords from.now }
    requires linked { LinksRoms from.now }
    ensures placed { PlacesAll from.now plan.new result }
    ensures late { late_in plan.new ≡ late_in plan.old }
{
    let mut count: usize = 0;
    for u in 0..from.net.node_count() {
        if 1024 < count {
            return count;
        }
        plan[FIRSTS + u] = count as u16;
        if stays(from.net, from.mode, from.timing, u) {
            count = place(from, u, count, plan);
        }
    }
    count
}
