// The registers of the rewritten netlist: those of each wire, by reader, by operand, from source to reader; and what each entry reads.
ghost use Rattle.std.specs.Prelude.{◌≡◌, ◌+◌, ◌*◌, ◌<◌, ◌≤◌};
ghost use Rattle.plan.specs.Areas.{owners_in, words_in, late_in, firsts_in, sources_in};
ghost use Rattle.plan.specs.Registers.{behind, RegisterPut, PutsRegisters, entry_count};
ghost use Rattle.plan.specs.Retiming.{net_of, timing_of, IsPlanned, ReadsWire, LaysTo, LaysAll};

use super::entries::find_from;
use super::{FIRSTS, LATE, Operand, PLAN, Retiming, SOURCES};
use wiring::{ENDS, asked_clock, count_on, origin_of};

// Puts register r, which has the words of node s from a clock on and reads a node, where there is room for it.
pub fn put_register(r: usize, s: u16, clock: u16, before: u16, plan: &mut [u16; PLAN])
    requires { r ≤ 65535 }
    ensures { RegisterPut plan.old plan.new r s clock before }
{
    if r < 1024 {
        plan[r] = s;
        plan[LATE + r] = clock;
        plan[SOURCES + 3 * r] = before;
    }
}

// Puts the registers of a wire, from its source on, and gives what its reader reads: the last of them, or the source where it has none. The lead is that of
// the reader, counted from the origin.
fn put_registers(
    s: u16,
    from: u16,
    lead: usize,
    origin: usize,
    count: usize,
    start: usize,
    plan: &mut [u16; PLAN],
) -> u16
    requires lead { lead ≤ 2050 }
    requires count { count ≤ 3075 }
    requires start { start ≤ 1024 }
    ensures last { result ≡ behind from start count }
    ensures puts { PutsRegisters s from lead origin count start (owners_in plan.old) (late_in plan.old) (sources_in plan.old) (owners_in plan.new) (late_in plan.new) (sources_in plan.new) }
    ensures words { words_in plan.new ≡ words_in plan.old }
    ensures firsts { firsts_in plan.new ≡ firsts_in plan.old }
{
    let mut before = from;
    for t in 0..count {
        let r = start + t;
        let clock = asked_clock(lead + (count - 1 - t), origin);
        put_register(r, s, clock, before, plan);
        before = r as u16;
    }
    before
}

// Lays the wire to an operand of an entry, whose old node is x; gives the number of nodes. In the old netlist its number is k.
fn lay_wire(
    from: &Retiming,
    entries: usize,
    total: usize,
    to: Operand,
    x: usize,
    plan: &mut [u16; PLAN],
) -> usize
    requires planned { IsPlanned from.now plan.old }
    requires entries { entries ≡ entry_count (net_of from.now) (timing_of from.now) }
    requires total { total ≤ 1024 }
    requires wire { ReadsWire from.now plan.old to.e to.p x }
    requires laid { LaysTo from.now plan.old (3 * to.e + to.p) total }
    ensures laid { LaysTo from.now plan.new (3 * to.e + to.p + 1) result }
    ensures few { result ≤ 4099 }
    ensures firsts { firsts_in plan.new ≡ firsts_in plan.old }
{
    from.net.bounds();
    let Operand { e, p } = to;
    let k = 3 * x + p;
    let end = from.wires[ENDS + k] as usize;
    let s = from.net.source(x, p);
    let first = plan[FIRSTS + end] as usize;
    let source = find_from(plan, from.copied[k], first, entries) as u16;
    let count = count_on(from.net, from.mode, from.timing, x, s);
    let lead = from.timing[x] as usize;
    let origin = origin_of(from.net, from.mode);
    let last = put_registers(s as u16, source, lead, origin, count, total, plan);
    plan[SOURCES + (3 * e + p)] = last;
    total + count
}

// Lays the wires of entry e; gives the number of nodes. It gives up where there are more than 1,024.
fn lay_entry(
    from: &Retiming,
    entries: usize,
    total: usize,
    e: usize,
    plan: &mut [u16; PLAN],
) -> usize
    requires planned { IsPlanned from.now plan.old }
    requires entries { entries ≡ entry_count (net_of from.now) (timing_of from.now) }
    requires total { total ≤ 1024 }
    requires entry { e < entries }
    requires laid { LaysTo from.now plan.old (3 * e) total }
    ensures exact { result ≤ 1024 → LaysTo from.now plan.new (3 * e + 3) result }
    ensures over { 1024 < result → LaysAll from.now plan.new result }
    ensures firsts { firsts_in plan.new ≡ firsts_in plan.old }
{
    let mut total = total;
    let x = plan[e] as usize;
    for p in 0..from.net.source_count(x) {
        if 1024 < total {
            return total;
        }
        total = lay_wire(from, entries, total, Operand { e, p }, x, plan);
    }
    total
}

// Lays all wires; gives the number of nodes. It gives up where there are more than 1,024.
pub fn lay_wires(from: &Retiming, entries: usize, plan: &mut [u16; PLAN]) -> usize
    requires planned { IsPlanned from.now plan.old }
    requires entries { entries ≡ entry_count (net_of from.now) (timing_of from.now) }
    requires laid { LaysTo from.now plan.old 0 entries }
    ensures { LaysAll from.now plan.new result }
{
    let mut total = entries;
    for e in 0..entries {
        if 1024 < total {
            return total;
        }
        total = lay_entry(from, entries, total, e, plan);
    }
    total
}
