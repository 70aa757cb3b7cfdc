// How long the chain is: as long as the wire needs that has the last gate.
ghost use Rattle.std.specs.Prelude.{◌≡◌, ◌≤◌, ◌<◌};
ghost use Rattle.netlist.specs.Net.{size};
ghost use Rattle.behaviour.specs.Run.{zero_word};
ghost use Rattle.retiming.specs.Gates.{steers_of, chain_length};
ghost use Rattle.retiming.specs.Modes.{mode_timing};
ghost use Rattle.wiring.specs.Wiring.{Timed};
ghost use Rattle.steering.specs.ChainLaws.{shown_from, steers_from};

use circuit::Netlist;
use retiming::Mode;
use wires::{PASSES, ROOTS, TIMING};
use wiring::{origin_of, wires_to};

// How many constants and gates stand on the wire from s to x: none where its source is not late.
pub fn shown_on(net: &Netlist, mode: Mode, timing: &[u16; TIMING], x: usize, s: usize) -> usize
    requires timed { let N = net.now.net in Timed N (mode_timing mode N) timing.now }
    requires reader { x < size net.now.net }
    requires source { s < size net.now.net }
    ensures shown { let N = net.now.net in result ≡ shown_from N (mode_timing mode N) x s }
    ensures few { result ≤ 1025 }
{
    net.bounds();
    let u = timing[ROOTS + s] as usize;
    let origin = origin_of(net, mode);
    if origin <= timing[u] as usize {
        return 0;
    }
    // Kinds follow no pattern: that of the root is added, with no branch on it.
    let before = timing[PASSES + s] as usize + usize::from(net.is_clocked_rom(u));
    before.saturating_sub((timing[x] as usize).saturating_sub(origin))
}

// How many registers of the chain the wire from s to x needs.
fn steers_on(net: &Netlist, mode: Mode, timing: &[u16; TIMING], x: usize, s: usize) -> usize
    requires timed { let N = net.now.net in Timed N (mode_timing mode N) timing.now }
    requires reader { x < size net.now.net }
    requires source { s < size net.now.net }
    ensures steers { let N = net.now.net in result ≡ steers_from N (mode_timing mode N) x s }
    ensures few { result ≤ 2051 }
{
    net.bounds();
    let shown = shown_on(net, mode, timing, x, s);
    if shown == 0 {
        return 0;
    }
    origin_of(net, mode).saturating_sub(timing[x] as usize) + shown
}

// How many the wires of x need.
fn steers_of(net: &Netlist, mode: Mode, timing: &[u16; TIMING], x: usize) -> usize
    requires timed { let N = net.now.net in Timed N (mode_timing mode N) timing.now }
    requires reader { x < size net.now.net }
    ensures steers { let N = net.now.net in result ≡ steers_of N (mode_timing mode N) (zero_word N) x }
    ensures few { result ≤ 2051 }
{
    let n = wires_to(net, mode, timing, x);
    let mut most: usize = 0;
    for p in 0..n {
        let s = net.source(x, p);
        most = most.max(steers_on(net, mode, timing, x, s));
    }
    most
}

// How many all wires need.
pub fn chain_length(net: &Netlist, mode: Mode, timing: &[u16; TIMING]) -> usize
    requires timed { let N = net.now.net in Timed N (mode_timing mode N) timing.now }
    ensures chain { let N = net.now.net in result ≡ chain_length N (mode_timing mode N) (zero_word N) }
    ensures few { result ≤ 2051 }
{
    let n = net.node_count();
    let mut most: usize = 0;
    for x in 0..n {
        most = most.max(steers_of(net, mode, timing, x));
    }
    most
}
