// Check 6: no such node or table, or an output port as source.
ghost use Rattle.std.specs.Prelude.{◌≡◌, not, ◌<◌, ◌≤◌};
ghost use Rattle.lists.specs.Lists.{any_below, lowest};
ghost use Rattle.netlist.specs.Net.{Net, size, element_at, source};
ghost use Rattle.netlist.specs.Verdict.{table_there, no_source, bad_source};
ghost use Rattle.rules.specs.Marks.{Marks};
ghost use Rattle.rules.specs.OrFirst.{OrFirst};

use super::readers::mark_sources;
use circuit::Netlist;

// Whether the table of node v is missing. Only a ROM has one.
fn table_missing(net: &Netlist, v: usize) -> bool
    requires { v < size net.now.net }
    ensures { let N = net.now.net in result ≡ not (table_there N.tables (element_at N v)) }
{
    net.is_memory(v) && net.table_count() <= net.table(v)
}

// Whether u is no node, or an output port.
fn no_source(net: &Netlist, u: usize) -> bool
    ensures { result ≡ no_source net.now.net u }
{
    if u < net.node_count() {
        net.code(u) == 1
    } else {
        true
    }
}

// Source i of n, or the first where there are not so many. How many a node has follows no pattern: to look at the first again is cheaper than a branch.
pub fn or_first(i: usize, n: usize) -> usize
    ensures first { OrFirst i n result }
    ensures few { result ≤ i }
{
    if i < n { i } else { 0 }
}

// Whether one of the first n sources of node v is no source.
fn any_no_source(net: &Netlist, v: usize, n: usize) -> bool
    requires node { v < size net.now.net }
    requires few { n ≤ 3 }
    ensures { let N = net.now.net in result ≡ any_below n (λ p. no_source N (source N v p)) }
{
    if n == 0 {
        return false;
    }
    if no_source(net, net.source(v, 0)) {
        return true;
    }
    let second = or_first(1, n);
    if no_source(net, net.source(v, second)) {
        return true;
    }
    let third = or_first(2, n);
    no_source(net, net.source(v, third))
}

fn bad_source(net: &Netlist, v: usize) -> bool
    requires { v < size net.now.net }
    ensures { result ≡ bad_source net.now.net v }
{
    table_missing(net, v) || any_no_source(net, v, net.source_count(v))
}

// The lowest node that check 6 refuses, or the number of nodes: then all that is read is marked, for check 8.
pub fn lowest_bad_source(net: &Netlist, marks: &mut [u8]) -> usize
    requires { Marks net.now.net marks.old 0 }
    ensures lowest { let N = net.now.net in result ≡ lowest (size N) (bad_source N) }
    ensures marks { let N = net.now.net in size N ≤ result → Marks N marks.new (size N) }
{
    let n = net.node_count();
    for v in 0..n {
        if bad_source(net, v) {
            return v;
        }
        mark_sources(net, v, net.source_count(v), marks);
    }
    n
}
