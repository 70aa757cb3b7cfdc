// The wires of an opened netlist: for every node the root where its wire begins, and the registers passed on the way back to it.
#![tactic(auto)]

ghost use Rattle.std.specs.Prelude.{◌≡◌, ◌<◌, length, take};
ghost use Rattle.netlist.specs.Net.{size, Sourced};
ghost use Rattle.retiming.specs.Rewrite.{root, passed};
ghost use Rattle.wires.specs.Traced.{roots_in, passes_in, Ringless, HalfTraced, MoreTraced, AllTraced};
ghost use Rattle.wires.specs.TracedLaws.{Written};

use circuit::Netlist;

// The timing area: the leads of the nodes, the roots of their wires, and the registers passed.
pub const ROOTS: usize = 1024;

pub const PASSES: usize = 2048;

pub const TIMING: usize = 3072;

// A clock that never comes: from it on no word is wanted.
pub const NEVER: u16 = 65534;

// The passes of a register that is not traced yet: no wire passes so many.
const WAITS: u16 = 65535;

// Where a wire begins, and the registers passed on the way back to it.
#[derive(Clone, Copy)]
struct Wire {
    root: u16,
    through: u16,
}

// Writes the root and the passes of node v.
fn put_wire(timing: &mut [u16; TIMING], v: usize, root: u16, through: u16)
    requires { v < 1024 }
    ensures written { Written (roots_in timing.old) (passes_in timing.old) (roots_in timing.new) (passes_in timing.new) v root through }
    ensures leads { take 1024 timing.new ≡ take 1024 timing.old }
{
    timing[ROOTS + v] = root;
    timing[PASSES + v] = through;
}

// Every node is its own root with no register passed, but the registers wait. Without a branch.
fn mark_all(net: &Netlist, timing: &mut [u16; TIMING])
    ensures half { let N = net.now.net in HalfTraced N (roots_in timing.new) (passes_in timing.new) (size N) }
    ensures leads { take 1024 timing.new ≡ take 1024 timing.old }
{
    for v in 0..net.node_count() {
        let waits = WAITS * u16::from(net.is_register(v));
        put_wire(timing, v, v as u16, waits);
    }
}

// The wire of node v: back through the registers that wait, up to a node that is traced.
fn wire_of(net: &Netlist, v: usize, timing: &[u16; TIMING]) -> Wire
    requires sourced { Sourced net.now.net }
    requires ringless { Ringless net.now.net }
    requires node { v < size net.now.net }
    requires half { let N = net.now.net in HalfTraced N (roots_in timing.now) (passes_in timing.now) (size N) }
    ensures root { result.root ≡ root net.now.net v }
    ensures through { result.through ≡ passed net.now.net v }
{
    net.bounds();
    let mut u = v;
    let mut count: u16 = 0;
    // From a register to its source: no range counts the nodes of a wire.
    while timing[PASSES + u] == WAITS {
        u = net.source(u, 0);
        count += 1;
    }
    let through = count + timing[PASSES + u];
    Wire {
        root: timing[ROOTS + u],
        through,
    }
}

// Traces the registers that wait on the wire of node v, from v back; each passes one register less than the one before it.
fn set_back(net: &Netlist, v: usize, wire: Wire, timing: &mut [u16; TIMING])
    requires sourced { Sourced net.now.net }
    requires ringless { Ringless net.now.net }
    requires node { v < size net.now.net }
    requires half { let N = net.now.net in HalfTraced N (roots_in timing.old) (passes_in timing.old) (size N) }
    requires root { wire.root ≡ root net.now.net v }
    requires through { wire.through ≡ passed net.now.net v }
    ensures half { let N = net.now.net in HalfTraced N (roots_in timing.new) (passes_in timing.new) (size N) }
    ensures more { MoreTraced net.now.net (roots_in timing.old) (passes_in timing.old) (roots_in timing.new) (passes_in timing.new) v }
    ensures leads { take 1024 timing.new ≡ take 1024 timing.old }
{
    net.bounds();
    let from = wire.root;
    let mut left = wire.through;
    let mut u = v;
    // Back along the wire, as in wire_of.
    while timing[PASSES + u] == WAITS {
        put_wire(timing, u, from, left);
        u = net.source(u, 0);
        left -= 1;
    }
}

// Node v; what was traced before stays so.
fn trace(net: &Netlist, v: usize, timing: &mut [u16; TIMING])
    requires sourced { Sourced net.now.net }
    requires ringless { Ringless net.now.net }
    requires node { v < size net.now.net }
    requires half { let N = net.now.net in HalfTraced N (roots_in timing.old) (passes_in timing.old) (size N) }
    ensures half { let N = net.now.net in HalfTraced N (roots_in timing.new) (passes_in timing.new) (size N) }
    ensures more { MoreTraced net.now.net (roots_in timing.old) (passes_in timing.old) (roots_in timing.new) (passes_in timing.new) v }
    ensures leads { take 1024 timing.new ≡ take 1024 timing.old }
{
    net.bounds();
    let waits = timing[PASSES + v] == WAITS;
    if waits {
        let wire = wire_of(net, v, timing);
        set_back(net, v, wire, timing);
    }
}

// Every node; each register is traced once. The leads stay; past the number of nodes nothing is said of roots and passes.
pub fn find_roots(net: &Netlist, timing: &mut [u16; TIMING])
    requires sourced { Sourced net.now.net }
    requires ringless { Ringless net.now.net }
    ensures traced { AllTraced net.now.net (roots_in timing.new) (passes_in timing.new) }
    ensures leads { take 1024 timing.new ≡ take 1024 timing.old }
{
    mark_all(net, timing);
    for v in 0..net.node_count() {
        trace(net, v, timing);
    }
}
