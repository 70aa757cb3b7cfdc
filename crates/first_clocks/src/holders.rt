// Where a word stands already at an earlier clock: further back on its node's wire.
ghost use Rattle.std.specs.Prelude.{◌≡◌, ◌≤◌, ◌<◌, length};
ghost use Rattle.netlist.specs.Net.{Net, size};
ghost use Rattle.netlist.specs.Checks.{WellFormed};
ghost use Rattle.retiming.specs.Rewrite.{passed};
ghost use Rattle.wires.specs.Traced.{roots_in, passes_in, AllTraced};
ghost use Rattle.first_clocks.specs.Holders.{Holder, Remembered};

use circuit::Netlist;
use wires::{PASSES, ROOTS, TIMING};

// A node's holder: the node so many registers back from it on its wire.
#[derive(Clone, Copy)]
pub struct Held {
    pub node: usize,
    pub back: u16,
    pub holder: usize,
}

// From where to go on: the last holder that was found, where it is the same node's and not too far back, else the node itself.
// The registers of a wire ask one after the other, so that its row is walked once.
fn nearest(last: Option<Held>, v: usize, far: u16) -> Held
    ensures holder { (N : Net) → v < size N → Remembered N last → Holder N v result.back result.holder }
    ensures node { result.node ≡ v }
    ensures near { result.back ≤ far }
{
    match last {
        Some(held) if held.node == v && held.back <= far => held,
        _ => Held {
            node: v,
            back: 0,
            holder: v,
        },
    }
}

// Walks on to the holder that is so many registers back.
fn walk_back(net: &Netlist, from: Held, far: u16) -> Held
    requires formed { WellFormed net.now.net }
    requires holder { Holder net.now.net from.node from.back from.holder }
    requires near { from.back ≤ far }
    requires passed { far ≤ passed net.now.net from.node }
    ensures holder { Holder net.now.net from.node far result.holder }
    ensures node { result.node ≡ from.node }
    ensures back { result.back ≡ far }
{
    let mut holder = from.holder;
    for _back in from.back..far {
        holder = net.source(holder, 0);
    }
    Held {
        node: from.node,
        back: far,
        holder,
    }
}

// The holder of the word that v has at a clock: the root of its wire, or a register as many back as there are clocks.
pub fn holder_at(
    net: &Netlist,
    timing: &[u16; TIMING],
    v: usize,
    clock: u16,
    last: Option<Held>,
) -> Held
    requires formed { WellFormed net.now.net }
    requires traced { AllTraced net.now.net (roots_in timing.now) (passes_in timing.now) }
    requires node { v < size net.now.net }
    requires last { Remembered net.now.net last }
    ensures holder { Holder net.now.net v result.back result.holder }
    ensures node { result.node ≡ v }
    ensures near { result.back ≤ clock }
{
    net.bounds();
    let through = timing[PASSES + v];
    if through <= clock {
        return Held {
            node: v,
            back: through,
            holder: timing[ROOTS + v] as usize,
        };
    }
    walk_back(net, nearest(last, v, clock), clock)
}
