// A depth-first walk that proposes an order: down to what a node reads, back with the node noted. Nobody trusts it, so nothing is said of what it leaves.
#![tactic(auto)]

ghost use Rattle.std.specs.Prelude.{◌≡◌, ◌+◌, ◌≤◌, length};

use areas::{at_or, put};
use circuit::Netlist;
use order::{Steps, count_at};

// The sections of the work area: the nodes in the order in which the walk left them, its stack, and which nodes it met.
const STACK: usize = 1024;

const MET: usize = 2048;

// The words of the work area.
pub const AREA: usize = 3072;

// Notes the nodes that read nothing that counts, without a branch, so that the walk passes them by; gives their number.
fn note_free(net: &Netlist, steps: Steps, area: &mut [u16]) -> usize
    ensures { result ≤ 1024 }
{
    let n = net.node_count();
    let mut noted: usize = 0;
    for v in 0..n {
        let free = count_at(net, steps, v) == 0;
        put(area, MET + v, free as u16);
        put(area, noted, v as u16);
        noted += free as usize;
    }
    noted
}

// The first source of v that counts and was not met, or 65,535.
fn next_unmet(net: &Netlist, steps: Steps, v: usize, area: &[u16]) -> usize
    ensures { result ≤ 65535 }
{
    if v < net.node_count() {
        let n = count_at(net, steps, v);
        for p in 0..n {
            let u = net.source(v, p);
            if at_or(area, MET + u, 0) == 0 {
                return u;
            }
        }
    }
    65535
}

// Walks from a root, and gives how many nodes are noted. Each step enters a node or leaves one.
fn walk_from(net: &Netlist, steps: Steps, root: usize, area: &mut [u16], start: usize) -> usize
    requires root { root ≤ 1024 }
    requires start { start ≤ 4194304 }
    ensures { result ≤ start + 2048 }
{
    if 0 < at_or(area, MET + root, 0) {
        return start;
    }
    put(area, MET + root, 1);
    put(area, STACK, root as u16);
    let mut depth: usize = 1;
    let mut noted = start;
    for _i in 0..2048usize {
        if depth == 0 {
            return noted;
        }
        let v = at_or(area, STACK + depth - 1, 0) as usize;
        let u = next_unmet(net, steps, v, area);
        if u < 1024 {
            put(area, MET + u, 1);
            put(area, STACK + depth, u as u16);
            depth += 1;
        } else {
            put(area, noted, v as u16);
            noted += 1;
            depth -= 1;
        }
    }
    noted
}

// Proposes an order of the nodes by steps of a class, sources before readers: the first words of the work area.
pub fn propose(net: &Netlist, steps: Steps, area: &mut [u16])
    ensures { length area.new ≡ length area.old }
{
    let n = net.node_count();
    let mut noted = note_free(net, steps, area);
    for root in 0..n {
        noted = walk_from(net, steps, root, area, noted);
    }
}
