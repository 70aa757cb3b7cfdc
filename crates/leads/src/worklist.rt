// A worklist: nodes whose numbers were raised wait on a stack until they raise what they read. It saves passes, and nobody trusts it.
ghost use Rattle.std.specs.Prelude.{◌+◌, ◌≤◌, ◌<◌, length};
ghost use Rattle.netlist.specs.Net.{size, Sourced};
ghost use Rattle.leads.specs.Progress.{StillWalked};

use super::{NODES, relax};
use areas::{at_or, put};
use circuit::Netlist;

// The stack stands first in the work area, then a flag for each node that waits on it.
const WAITING: usize = 1024;

const WORK: usize = 2048;

// Puts a node on the stack, unless it waits there; gives the new depth.
fn push(work: &mut [u16; WORK], u: usize, depth: usize) -> usize
    requires { u ≤ 65535 }
    ensures { result ≤ depth + 1 }
{
    if at_or(work, WAITING + u, 0) == 0 && depth < WAITING {
        put(work, WAITING + u, 1);
        work[depth] = u as u16;
        return depth + 1;
    }
    depth
}

// Puts what node x reads on the stack.
fn push_sources(net: &Netlist, x: usize, work: &mut [u16; WORK], start: usize) -> usize
    requires { x < size net.now.net }
    ensures { result ≤ start + 3 }
{
    let mut depth = start;
    for p in 0..net.source_count(x) {
        depth = push(work, net.source(x, p), depth);
    }
    depth
}

// The nodes in order, the last on top, so that readers come before what they read.
fn push_order(net: &Netlist, work: &mut [u16; WORK]) -> usize {
    let mut depth = 0;
    for i in 0..net.node_count() {
        depth = push(work, net.turn(i), depth);
    }
    depth
}

// Visits the nodes in order from the last on, and again those whose number was raised: each raises what it reads.
// A number over the bound shows a closed debt, and ends it.
pub fn spread(net: &Netlist, bound: usize, leads: &mut [u16; NODES])
    requires sourced { Sourced net.now.net }
    requires bound { bound < 65535 }
    ensures { StillWalked net.now.net leads.old leads.new }
{
    let n = net.node_count();
    let mut work = [0u16; WORK];
    let mut depth = push_order(net, &mut work);
    // A stack: each turn takes one node off it and may put three on.
    while 0 < depth {
        depth -= 1;
        let x = at_or(&work, depth, 0) as usize;
        if n <= x {
            continue;
        }
        if bound < leads[x] as usize {
            return;
        }
        work[WAITING + x] = 0;
        if relax(net, bound, x, leads) == 0 {
            continue;
        }
        depth = push_sources(net, x, &mut work, depth);
    }
}
