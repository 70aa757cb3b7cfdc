// The gates with their constants, by reader, operand and clock; each reader of such a wire reads its first gate.
ghost use Rattle.std.specs.Prelude.{◌≡◌, ◌+◌, ◌*◌, ◌<◌, ◌≤◌, get_or};
ghost use Rattle.netlist.specs.Net.{element_at, operands};
ghost use Rattle.plan.specs.Areas.{owners_in, words_in, late_in, sources_in};
ghost use Rattle.steering.specs.GatesTo.{gate_after, PutsPairs};
ghost use Rattle.steering.specs.Gating.{net_of, IsTimed, IsCounted, ReadsWire, GatesFirst, GatesAll};
ghost use Rattle.steering.specs.PairsPut.{two_put_of, gate_put};

use super::Gating;
use super::chain::shown_on;
use plan::registers::put_register;
use plan::{Operand, PLAN, SOURCES};
use wiring::origin_of;

// Puts a constant as node r, which has the word of node s at a clock, and its gate as the next one.
fn put_pair(r: usize, s: u16, clock: u16, steer: u16, next: u16, plan: &mut [u16; PLAN])
    requires place { r < 65535 }
    ensures owners { owners_in plan.new ≡ two_put_of (owners_in plan.old) r s s }
    ensures late { late_in plan.new ≡ two_put_of (late_in plan.old) r clock 65535 }
    ensures sources { sources_in plan.new ≡ gate_put (sources_in plan.old) r steer next }
    ensures words { words_in plan.new ≡ words_in plan.old }
{
    put_register(r, s, clock, 0, plan);
    put_register(r + 1, s, 65535, steer, plan);
    if r + 1 < 1024 {
        plan[SOURCES + (3 * (r + 1) + 1)] = next;
        plan[SOURCES + (3 * (r + 1) + 2)] = r as u16;
    }
}

// What gate t of a wire reads where it is steered by 1.
fn gate_after(head: u16, start: usize, count: usize, t: usize) -> u16
    requires start { start ≤ 1024 }
    requires count { count ≤ 1025 }
    requires gate { t < count }
    ensures { result ≡ gate_after head start count t }
{
    if t + 1 < count {
        (start + 2 * t + 3) as u16
    } else {
        head
    }
}

// Puts the constants and gates of a wire.
fn put_pairs(
    s: u16,
    head: u16,
    clock: usize,
    steer: usize,
    count: usize,
    start: usize,
    plan: &mut [u16; PLAN],
)
    requires clock { clock ≤ 2050 }
    requires steer { steer ≤ 4096 }
    requires count { count ≤ 1025 }
    requires start { start ≤ 1024 }
    ensures pairs { PutsPairs s head clock steer count start count (owners_in plan.old) (late_in plan.old) (sources_in plan.old)
        (owners_in plan.new) (late_in plan.new) (sources_in plan.new) }
    ensures words { words_in plan.new ≡ words_in plan.old }
{
    for t in 0..count {
        let next = gate_after(head, start, count, t);
        put_pair(
            start + 2 * t,
            s,
            (clock + t) as u16,
            (steer + t) as u16,
            next,
            plan,
        );
    }
}

// Adds the gates of the wire to an operand of an entry, whose old node is x; gives the number of nodes.
fn gate_wire(from: &Gating, total: usize, to: Operand, x: usize, plan: &mut [u16; PLAN]) -> usize
    requires timed { IsTimed from.now }
    requires counted { IsCounted from.now }
    requires few { total ≤ 1024 }
    requires entry { to.e < from.now.made.entries }
    requires node { x ≡ get_or plan.old to.e 0 }
    requires operand { to.p < operands (element_at (net_of from.now) (get_or (owners_in plan.old) to.e 0)) }
    requires wire { ReadsWire from.now to.e to.p x }
    requires gates { GatesFirst from.now plan.old (3 * to.e + to.p) total }
    ensures gates { GatesFirst from.now plan.new (3 * to.e + to.p + 1) result }
    ensures few { result ≤ 3074 }
{
    from.net.bounds();
    let s = from.net.source(x, to.p);
    let count = shown_on(from.net, from.made.mode, from.timing, x, s);
    if count == 0 {
        return total;
    }
    let at = SOURCES + (3 * to.e + to.p);
    let head = plan[at];
    let lead = from.timing[x] as usize;
    let origin = origin_of(from.net, from.made.mode);
    let steer = from.made.wired + 1 + origin.saturating_sub(lead);
    let clock = lead.saturating_sub(origin);
    put_pairs(s as u16, head, clock, steer, count, total, plan);
    plan[at] = (total + 1) as u16;
    total + 2 * count
}

// Adds the gates of entry e; gives the number of nodes. It gives up where there are more than 1,024.
fn gate_entry(from: &Gating, total: usize, e: usize, plan: &mut [u16; PLAN]) -> usize
    requires timed { IsTimed from.now }
    requires counted { IsCounted from.now }
    requires few { total ≤ 1024 }
    requires entry { e < from.now.made.entries }
    requires gates { GatesFirst from.now plan.old (3 * e) total }
    ensures gates { result ≤ 1024 → GatesFirst from.now plan.new (3 * e + 3) result }
    ensures over { 1024 < result → GatesAll from.now plan.new result }
{
    let x = plan[e] as usize;
    let n = from.net.source_count(x);
    let mut total = total;
    for p in 0..n {
        if 1024 < total {
            return total;
        }
        total = gate_wire(from, total, Operand { e, p }, x, plan);
    }
    total
}

// Adds the gates of all entries to so many nodes; gives the number of nodes then. It gives up where there are more than 1,024.
pub(crate) fn gate_entries(from: &Gating, total: usize, plan: &mut [u16; PLAN]) -> usize
    requires timed { IsTimed from.now }
    requires counted { IsCounted from.now }
    requires gates { GatesFirst from.now plan.old 0 total }
    ensures { GatesAll from.now plan.new result }
{
    let mut total = total;
    for e in 0..from.made.entries {
        if 1024 < total {
            return total;
        }
        total = gate_entry(from, total, e, plan);
    }
    total
}
