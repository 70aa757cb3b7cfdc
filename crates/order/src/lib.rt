// Puts the nodes of a circuit into an order in which each comes after what it reads within the clock.
// A node is placed where all that it reads is placed; else it waits for a source that is missing.
#![tactic(auto)]

pub mod hinted;

ghost use Rattle.std.specs.Prelude.{◌≡◌, true, false, ℕ, ◌<◌, ◌≤◌, length, get_or};
ghost use Rattle.netlist.specs.Net.{Net, size, element_at, in_clock, Sourced};
ghost use Rattle.circuit.specs.Circuit.{net_of, order_of, Circuit};
ghost use Rattle.order.specs.Pass.{Waiting};
ghost use Rattle.order.specs.Order.{class_of, flags_in, order_in, Placed, ready, PlacedOnce, PlacedPass, Outcome};

use areas::{at_or, read_at, write_at};
use circuit::{Netlist, put_order};

// The steps that count: those within the clock (check 9), or those into registers (check 10). (An enum and no closure: contracts name the class of a kind of steps.)
#[derive(Clone, Copy)]
pub enum Steps {
    InClock,
    InRegisters,
}

// How many sources of node v, from the first on, count. Kinds follow no pattern: there is no branch on them.
pub fn count_at(net: &Netlist, steps: Steps, v: usize) -> usize
    requires { v < size net.now.net }
    ensures count { result ≡ (class_of steps).of (element_at net.now.net v) }
    ensures few { result ≤ 3 }
{
    match steps {
        Steps::InClock => {
            let n = net.source_count(v);
            if net.is_register(v) | net.is_clocked_rom(v) {
                0
            } else {
                n
            }
        }
        Steps::InRegisters => net.is_register(v) as usize,
    }
}

// The area of an order in the making: the nodes that stand in it; for each node the first that waits for it and the next that waits with it, one more
// than their numbers, which nobody trusts; and a flag for each node that stands in the order.
const HEADS: usize = 1024;

const NEXTS: usize = 2048;

const FLAGS: usize = 3072;

const PLACING: usize = 4096;

// No source is missing.
const NONE: usize = 65535;

// The first source of node v within the clock that is not flagged, or none.
fn missing(net: &Netlist, area: &[u16; PLACING], v: usize) -> usize
    requires sourced { Sourced net.now.net }
    requires node { v < size net.now.net }
    ensures none { result ≡ 65535 → ready in_clock net.now.net (flags_in area.now) v ≡ true }
    ensures some { result < 65535 → ready in_clock net.now.net (flags_in area.now) v ≡ false }
    ensures word { result ≤ 65535 }
{
    net.bounds();
    let n = count_at(net, Steps::InClock, v);
    for p in 0..n {
        let u = net.source(v, p);
        if read_at(area, FLAGS + u) == 0 {
            return u;
        }
    }
    NONE
}

// Lets node v wait for node u.
fn wait(v: usize, u: usize, area: &mut [u16; PLACING])
    requires { v < 1024 }
    ensures flags { flags_in area.new ≡ flags_in area.old }
    ensures order { order_in area.new ≡ order_in area.old }
{
    if 1023 < u {
        return;
    }
    let head = read_at(area, HEADS + u);
    write_at(area, NEXTS + v, head);
    write_at(area, HEADS + u, (v + 1) as u16);
}

// Places node v next where it is ready and not placed yet, or lets it wait; gives the number of nodes placed.
fn place(net: &Netlist, v: usize, k: usize, area: &mut [u16; PLACING]) -> usize
    requires sourced { Sourced net.now.net }
    requires node { v < size net.now.net }
    requires placed { Placed in_clock net.now.net (flags_in area.old) (order_in area.old) k }
    ensures { PlacedOnce in_clock net.now.net (flags_in area.old) (flags_in area.new) (order_in area.new) k result v }
{
    net.bounds();
    if 0 < read_at(area, FLAGS + v) {
        return k;
    }
    let u = missing(net, area, v);
    if u < NONE {
        wait(v, u, area);
        return k;
    }
    write_at(area, k, v as u16);
    write_at(area, FLAGS + v, 1);
    k + 1
}

// The same where v is a node.
fn place_if(net: &Netlist, v: usize, k: usize, area: &mut [u16; PLACING]) -> usize
    requires sourced { Sourced net.now.net }
    requires placed { Placed in_clock net.now.net (flags_in area.old) (order_in area.old) k }
    ensures { Placed in_clock net.now.net (flags_in area.new) (order_in area.new) result }
{
    if v < net.node_count() {
        place(net, v, k, area)
    } else {
        k
    }
}

// Tries the nodes that wait for node v.
fn wake(net: &Netlist, v: usize, start: usize, area: &mut [u16; PLACING]) -> usize
    requires sourced { Sourced net.now.net }
    requires few { v < 1024 }
    requires placed { Placed in_clock net.now.net (flags_in area.old) (order_in area.old) start }
    ensures { Placed in_clock net.now.net (flags_in area.new) (order_in area.new) result }
{
    let mut w = read_at(area, HEADS + v) as usize;
    let mut k = start;
    for _i in 0..1024 {
        if w == 0 {
            return k;
        }
        let node = w - 1;
        w = at_or(area, NEXTS + node, 0) as usize;
        k = place_if(net, node, k, area);
    }
    k
}

// Tries the nodes that wait, from those for the first node of the order on.
fn wake_all(net: &Netlist, start: usize, area: &mut [u16; PLACING]) -> usize
    requires sourced { Sourced net.now.net }
    requires placed { Placed in_clock net.now.net (flags_in area.old) (order_in area.old) start }
    ensures { Placed in_clock net.now.net (flags_in area.new) (order_in area.new) result }
{
    net.bounds();
    let n = net.node_count();
    let mut k = start;
    for i in 0..n {
        if k <= i {
            return k;
        }
        k = wake(net, read_at(area, i) as usize, k, area);
    }
    k
}

// One pass over the nodes in file order.
fn sweep(net: &Netlist, start: usize, area: &mut [u16; PLACING]) -> usize
    requires sourced { Sourced net.now.net }
    requires placed { Placed in_clock net.now.net (flags_in area.old) (order_in area.old) start }
    ensures { let N = net.now.net in PlacedPass in_clock N (flags_in area.old) (flags_in area.new) (order_in area.new) start result (size N) }
{
    let n = net.node_count();
    let mut k = start;
    for v in 0..n {
        k = place(net, v, k, area);
    }
    k
}

// Passes until all are placed, or nothing more can be. Where no node is behind a loop there is none.
// (A `while`: its counter takes what each pass gives.)
fn settle(net: &Netlist, start: usize, area: &mut [u16; PLACING]) -> usize
    requires sourced { Sourced net.now.net }
    requires placed { Placed in_clock net.now.net (flags_in area.old) (order_in area.old) start }
    ensures placed { Placed in_clock net.now.net (flags_in area.new) (order_in area.new) result }
    ensures waiting { let N = net.now.net in Waiting (ready in_clock N) (flags_in area.new) (size N) }
{
    let n = net.node_count();
    let mut k = start;
    while k < n {
        let more = sweep(net, k, area);
        if more == k {
            return k;
        }
        k = more;
    }
    k
}

// Keeps the order in the circuit.
fn keep_order(file: &[u8], net: &mut [u16], area: &[u16; PLACING])
    requires { Circuit file.now net.old }
    ensures net { net_of file.now net.new ≡ net_of file.now net.old }
    ensures circuit { Circuit file.now net.new }
    ensures order { (i : ℕ) → i < size (net_of file.now net.old) → get_or (order_of net.new) i 0 ≡ get_or area.now i 0 }
{
    let n = Netlist::of(file, net).node_count();
    for i in 0..n {
        put_order(file, net, i, read_at(area, i));
    }
}

// Puts the nodes into an order, in the circuit, as far as they can be, and gives how many.
pub fn order_nodes(file: &[u8], net: &mut [u16]) -> usize
    requires circuit { Circuit file.now net.old }
    requires sourced { Sourced (net_of file.now net.old) }
    ensures net { net_of file.now net.new ≡ net_of file.now net.old }
    ensures circuit { Circuit file.now net.new }
    ensures outcome { Outcome in_clock (net_of file.now net.old) (order_of net.new) result }
{
    let shown = Netlist::of(file, net);
    shown.bounds();
    let mut area = [0u16; PLACING];
    let first = sweep(&shown, 0, &mut area);
    let placed = wake_all(&shown, first, &mut area);
    let settled = settle(&shown, placed, &mut area);
    keep_order(file, net, &area);
    settled
}
