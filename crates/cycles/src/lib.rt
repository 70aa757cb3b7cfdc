// Checks 9 and 10: the lowest node that reaches itself, searched for only where the nodes cannot all be put in order.
#![tactic(auto)]

pub mod rings;

ghost use Rattle.std.specs.Prelude.{◌≡◌, ◌<◌, ◌≤◌, length};
ghost use Rattle.lists.specs.Lists.{lowest};
ghost use Rattle.netlist.specs.Net.{Net, size, in_clock, Sourced};
ghost use Rattle.netlist.specs.Reach.{reaches_itself};
ghost use Rattle.circuit.specs.Circuit.{net_of, order_of, Circuit};
ghost use Rattle.circuit.specs.Order.{Complete};
ghost use Rattle.order.specs.Order.{class_of};
ghost use Rattle.cycles.specs.Spread.{touches, Reached, ReachedOnce, ReachedPass};

use areas::{at_or, put, read_at};
use circuit::Netlist;
use order::{Steps, count_at, order_nodes};
use proposal::{AREA, propose};

// A mark for each node that a netlist can have.
const MARKS: usize = 1024;

// Whether node u reads the start s or a marked node.
fn is_touched(net: &Netlist, steps: Steps, s: usize, u: usize, marks: &[u8; MARKS]) -> bool
    requires { u < size net.now.net }
    ensures { result ≡ touches (class_of steps) net.now.net s marks.now u }
{
    let n = count_at(net, steps, u);
    for p in 0..n {
        let v = net.source(u, p);
        if v == s {
            return true;
        }
        if 0 < at_or(marks, v, 0) {
            return true;
        }
    }
    false
}

// Marks u where it reads the start or a marked node; gives the number of marks.
fn touch(
    net: &Netlist,
    steps: Steps,
    s: usize,
    u: usize,
    marks: &mut [u8; MARKS],
    k: usize,
) -> usize
    requires sourced { Sourced net.now.net }
    requires node { u < size net.now.net }
    requires reached { Reached (class_of steps) net.now.net s marks.old k }
    ensures { ReachedOnce (class_of steps) net.now.net s marks.old marks.new k result u }
{
    net.bounds();
    if 0 < at_or(marks, u, 0) {
        return k;
    }
    if is_touched(net, steps, s, u, marks) {
        put(marks, u, 1);
        return k + 1;
    }
    k
}

// The same where u is a node.
fn touch_if(
    net: &Netlist,
    steps: Steps,
    s: usize,
    u: usize,
    marks: &mut [u8; MARKS],
    k: usize,
) -> usize
    requires sourced { Sourced net.now.net }
    requires reached { Reached (class_of steps) net.now.net s marks.old k }
    ensures more { k ≤ result }
    ensures reached { Reached (class_of steps) net.now.net s marks.new result }
{
    if u < net.node_count() {
        touch(net, steps, s, u, marks, k)
    } else {
        k
    }
}

// One round from the start s over all nodes.
fn spread(net: &Netlist, steps: Steps, s: usize, marks: &mut [u8; MARKS], start: usize) -> usize
    requires sourced { Sourced net.now.net }
    requires reached { Reached (class_of steps) net.now.net s marks.old start }
    ensures { let N = net.now.net in ReachedPass (class_of steps) N s marks.old marks.new start result (size N) }
{
    let n = net.node_count();
    let mut k = start;
    for u in 0..n {
        k = touch(net, steps, s, u, marks, k);
    }
    k
}

// One round from the start s over the nodes of a hint, in its order. The hint has sources before readers, so that few rounds are enough; nobody trusts it.
fn spread_by(
    net: &Netlist,
    steps: Steps,
    s: usize,
    hint: &[u16],
    marks: &mut [u8; MARKS],
    start: usize,
) -> usize
    requires sourced { Sourced net.now.net }
    requires reached { Reached (class_of steps) net.now.net s marks.old start }
    requires hint { 1024 ≤ length hint.now }
    ensures start { start ≤ result }
    ensures reached { Reached (class_of steps) net.now.net s marks.new result }
{
    let n = net.node_count();
    let mut k = start;
    for i in 0..n {
        k = touch_if(net, steps, s, read_at(hint, i) as usize, marks, k);
    }
    k
}

// The search: from each node in turn rounds spread its mark until it comes back, which ends the search, or a round over all nodes changes nothing.
// (A `loop`: how many rounds there are, their marks tell. The scan is left from inside by its label, as the scope wants it.)
fn lowest_on_cycle(net: &Netlist, steps: Steps, hint: &[u16]) -> usize
    requires sourced { Sourced net.now.net }
    requires hint { 1024 ≤ length hint.now }
    ensures { let N = net.now.net in result ≡ lowest (size N) (reaches_itself (class_of steps) N) }
{
    net.bounds();
    let n = net.node_count();
    let mut found = n;
    'search: for s in 0..n {
        let mut marks = [0u8; MARKS];
        let mut marked: usize = 0;
        loop {
            let near = spread_by(net, steps, s, hint, &mut marks, marked);
            let more = spread(net, steps, s, &mut marks, near);
            if 0 < at_or(&marks, s, 0) {
                found = s;
                break 'search;
            }
            if more == near {
                break;
            }
            marked = more;
        }
    }
    found
}

// Check 9: the lowest node that reaches itself within the clock, or the number of nodes: then the circuit's order holds all nodes, each after what it reads.
pub fn lowest_cycle(file: &[u8], net: &mut [u16]) -> usize
    requires circuit { Circuit file.now net.old }
    requires sourced { Sourced (net_of file.now net.old) }
    ensures net { net_of file.now net.new ≡ net_of file.now net.old }
    ensures circuit { Circuit file.now net.new }
    ensures lowest { let N = net_of file.now net.old in result ≡ lowest (size N) (reaches_itself in_clock N) }
    ensures complete { let N = net_of file.now net.old in result ≡ size N → Complete in_clock N (order_of net.new) }
{
    let placed = order_nodes(file, net);
    let shown = Netlist::of(file, net);
    if placed == shown.node_count() {
        return placed;
    }
    let mut area = [0u16; AREA];
    propose(&shown, Steps::InClock, &mut area);
    lowest_on_cycle(&shown, Steps::InClock, &area)
}
