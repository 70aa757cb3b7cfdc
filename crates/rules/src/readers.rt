// Check 8: no reader, and not a port.
ghost use Rattle.std.specs.Prelude.{◌≡◌, ◌+◌, ◌<◌, ◌≤◌};
ghost use Rattle.lists.specs.Lists.{lowest};
ghost use Rattle.netlist.specs.Net.{Net, size, source};
ghost use Rattle.netlist.specs.Verdict.{unread};
ghost use Rattle.rules.specs.Marks.{Marks, Marked};

use super::sources::or_first;
use areas::put;
use circuit::Netlist;

// Marks the first n sources of node x. (Every source is a node where check 6 passed; a mark past the end would say nothing.)
pub fn mark_sources(net: &Netlist, x: usize, n: usize, marks: &mut [u8])
    requires node { x < size net.now.net }
    requires few { n ≤ 3 }
    ensures { Marked (source net.now.net x) n marks.old marks.new }
{
    if n == 0 {
        return;
    }
    let second = or_first(1, n);
    let third = or_first(2, n);
    put(marks, net.source(x, 0), 1);
    put(marks, net.source(x, second), 1);
    put(marks, net.source(x, third), 1);
}

fn not_read(net: &Netlist, marks: &[u8], v: usize) -> bool
    requires node { v < size net.now.net }
    requires marks { let N = net.now.net in Marks N marks.now (size N) }
    ensures { result ≡ unread net.now.net v }
{
    if 0 < marks[v] {
        return false;
    }
    // A port's code is 0 or 1.
    1 < net.code(v)
}

// The lowest node that check 8 refuses, or the number of nodes, by the marks of what is read.
pub fn lowest_unread(net: &Netlist, marks: &[u8]) -> usize
    requires { let N = net.now.net in Marks N marks.now (size N) }
    ensures { let N = net.now.net in result ≡ lowest (size N) (unread N) }
{
    let n = net.node_count();
    for v in 0..n {
        if not_read(net, marks, v) {
            return v;
        }
    }
    n
}
