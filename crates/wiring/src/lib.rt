// The wires of the netlist in a row, three to a node, each with its root, its source, and the clock of the reset word that a ROM at its root takes from it.
#![tactic(auto)]

pub mod links;

ghost use Rattle.std.specs.Prelude.{◌≡◌, cond, ◌+◌, ◌*◌, ◌<◌, ◌≤◌};
ghost use Rattle.netlist.specs.Net.{size, element_at, is_memory};
ghost use Rattle.retiming.specs.Modes.{mode_timing};
ghost use Rattle.wiring.specs.Wiring.{Timed, heads_in, Entered, count_from, asked_clock, wire_count};

use circuit::Netlist;
use retiming::Mode;
use wires::{NEVER, PASSES, ROOTS, TIMING};

// The area of the wires: of each its root, its source, and its clock; and of each ROM its first wire.
pub const ENDS: usize = 0;

pub const FROMS: usize = 3072;

pub const CLOCKS: usize = 6144;

pub const HEADS: usize = 9216;

pub const WIRES: usize = 10240;

// Stands where there is nothing: no wire, no ROM to ask a clock of, no first wire.
pub const NONE: u16 = 65535;

// From where a mode's leads are counted. (A `match` on the mode, here and below: it decides a number or a test, and a closure would be no plainer.)
pub fn origin_of(net: &Netlist, mode: Mode) -> usize
    ensures origin { result ≡ (mode_timing mode net.now.net).origin }
    ensures few { result ≤ 1026 }
{
    match mode {
        Mode::Plain => 0,
        Mode::Late => net.node_count() + 2,
    }
}

// The clock at which a word is asked for, where n is counted from the origin.
pub fn asked_clock(n: usize, origin: usize) -> u16
    requires { n < 65534 }
    ensures { result ≡ asked_clock origin n }
{
    if n < origin {
        NEVER
    } else {
        (n - origin) as u16
    }
}

// Whether node v stays: with a late start, one from which no output can be reached is left out.
pub fn stays(net: &Netlist, mode: Mode, timing: &[u16; TIMING], v: usize) -> bool
    requires timed { let N = net.now.net in Timed N (mode_timing mode N) timing.now }
    requires node { v < size net.now.net }
    ensures { result ≡ (mode_timing mode net.now.net).keeps v }
{
    net.bounds();
    match mode {
        Mode::Plain => true,
        Mode::Late => 0 < timing[v],
    }
}

// How many registers stand as nodes of their own on the wire from s to x, in the rewritten netlist.
pub fn count_on(net: &Netlist, mode: Mode, timing: &[u16; TIMING], x: usize, s: usize) -> usize
    requires timed { let N = net.now.net in Timed N (mode_timing mode N) timing.now }
    requires reader { x < size net.now.net }
    requires source { s < size net.now.net }
    ensures count { let N = net.now.net in result ≡ count_from N (mode_timing mode N) x s }
    ensures few { result ≤ 3075 }
{
    net.bounds();
    let u = timing[ROOTS + s] as usize;
    // Kinds as summands: they follow no pattern, so there is no branch on them.
    let before = timing[PASSES + s] as usize
        + usize::from(net.is_clocked_rom(u))
        + timing[u] as usize;
    before
        .saturating_sub(timing[x] as usize)
        .saturating_sub(usize::from(net.is_memory(u)))
}

// How many wires end at node v: none at a register, nor at a node that is left out.
pub fn wires_to(net: &Netlist, mode: Mode, timing: &[u16; TIMING], v: usize) -> usize
    requires timed { let N = net.now.net in Timed N (mode_timing mode N) timing.now }
    requires node { v < size net.now.net }
    ensures count { let N = net.now.net in result ≡ wire_count N (mode_timing mode N) v }
    ensures few { result ≤ 3 }
{
    // Registers follow no pattern, what stays does: the test that can be foreseen comes first.
    if stays(net, mode, timing, v) && !net.is_register(v) {
        net.source_count(v)
    } else {
        0
    }
}

// The clock asked for where node u is a ROM; no wire of any other node has one.
fn rom_clock(net: &Netlist, mode: Mode, u: usize, n: usize) -> u16
    requires node { u < size net.now.net }
    requires clock { n < 65534 }
    ensures { let N = net.now.net in result ≡ cond (is_memory (element_at N u)) (asked_clock (mode_timing mode N).origin n) 65535 }
{
    // Found for any node, so that nothing branches on the kind, which follows no pattern.
    let clock = asked_clock(n, origin_of(net, mode));
    if net.is_memory(u) { clock } else { NONE }
}

// Enters the wire to operand p of x.
fn enter_wire(
    net: &Netlist,
    mode: Mode,
    timing: &[u16; TIMING],
    x: usize,
    p: usize,
    wires: &mut [u16; WIRES],
)
    requires timed { let N = net.now.net in Timed N (mode_timing mode N) timing.now }
    requires reader { x < size net.now.net }
    requires few { p < 3 }
    requires wire { let N = net.now.net in p < wire_count N (mode_timing mode N) x }
    requires entered { let N = net.now.net in Entered N (mode_timing mode N) wires.old (3 * x + p) }
    ensures entered { let N = net.now.net in Entered N (mode_timing mode N) wires.new (3 * x + p + 1) }
    ensures heads { heads_in wires.new ≡ heads_in wires.old }
{
    net.bounds();
    let k = 3 * x + p;
    let s = net.source(x, p);
    let end = timing[ROOTS + s];
    let last = count_on(net, mode, timing, x, s) + timing[x] as usize;
    let taken = rom_clock(net, mode, end as usize, last);
    wires[ENDS + k] = end;
    wires[FROMS + k] = s as u16;
    wires[CLOCKS + k] = taken;
}

// Enters the wires that end at x.
fn enter_node(net: &Netlist, mode: Mode, timing: &[u16; TIMING], x: usize, wires: &mut [u16; WIRES])
    requires timed { let N = net.now.net in Timed N (mode_timing mode N) timing.now }
    requires reader { x < size net.now.net }
    requires entered { let N = net.now.net in Entered N (mode_timing mode N) wires.old (3 * x) }
    ensures entered { let N = net.now.net in Entered N (mode_timing mode N) wires.new (3 * x + 3) }
    ensures heads { heads_in wires.new ≡ heads_in wires.old }
{
    net.bounds();
    for p in 0..wires_to(net, mode, timing, x) {
        enter_wire(net, mode, timing, x, p, wires);
    }
}

// Enters all wires.
pub fn enter_wires(net: &Netlist, mode: Mode, timing: &[u16; TIMING], wires: &mut [u16; WIRES])
    requires timed { let N = net.now.net in Timed N (mode_timing mode N) timing.now }
    requires entered { let N = net.now.net in Entered N (mode_timing mode N) wires.old 0 }
    ensures entered { let N = net.now.net in Entered N (mode_timing mode N) wires.new (3 * size N) }
    ensures heads { heads_in wires.new ≡ heads_in wires.old }
{
    for x in 0..net.node_count() {
        enter_node(net, mode, timing, x, wires);
    }
}
