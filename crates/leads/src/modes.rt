// What the mode decides: where the search begins, and how the numbers that it found are those of the mode's timing.
ghost use Rattle.std.specs.Prelude.{◌≡◌, false, cond, ◌<◌, ◌≤◌, length};
ghost use Rattle.netlist.specs.Net.{size, Sourced};
ghost use Rattle.retiming.specs.LateLeads.{origin, lead_to};
ghost use Rattle.retiming.specs.Modes.{mode_ends, mode_closed, mode_timing};
ghost use Rattle.leads.specs.Progress.{Walked};
ghost use Rattle.leads.specs.Settled.{LeadsIn, Found};

use super::NODES;
use circuit::Netlist;
use retiming::Mode;

// The origin: the number of an empty walk. No walk without repetition loses so much.
pub fn origin(net: &Netlist) -> u16
    ensures { result ≡ origin net.now.net }
{
    (net.node_count() + 2) as u16
}

// Whether a walk that counts may end at node v.
fn may_end(net: &Netlist, mode: Mode, v: usize) -> bool
    requires { v < size net.now.net }
    ensures { result ≡ mode_ends mode net.now.net v }
{
    // (A `match` on the mode: it decides a number or a test, and a closure would be no plainer.)
    match mode {
        Mode::Plain => true,
        Mode::Late => net.is_output(v),
    }
}

// The number, or 0 where no walk counts: a choice without a branch.
fn number_if(counts: bool, number: u16) -> u16
    ensures { result ≡ cond counts number 0 }
{
    if counts { number } else { 0 }
}

// The empty walks: the origin where a walk may end, and 0 elsewhere.
pub fn begin(net: &Netlist, mode: Mode, leads: &mut [u16; NODES])
    ensures { Walked net.now.net (mode_ends mode net.now.net) leads.new }
{
    let base = origin(net);
    for v in 0..net.node_count() {
        leads[v] = number_if(may_end(net, mode, v), base);
    }
}

// The lead of node v in the mode's timing, by the number found: document 01 counts from 0, and with a late start an input port is at the origin.
fn timed(net: &Netlist, mode: Mode, base: u16, v: usize, number: u16) -> u16
    requires sourced { Sourced net.now.net }
    requires no_debt { mode_closed mode net.now.net ≡ false }
    requires base { base ≡ origin net.now.net }
    requires node { v < size net.now.net }
    requires found { number ≡ lead_to net.now.net (mode_ends mode net.now.net) v }
    ensures { result ≡ (mode_timing mode net.now.net).lead v }
{
    // (As above.)
    match mode {
        Mode::Plain => number - base,
        Mode::Late => { if net.is_input(v) { base } else { number } }
    }
}

// The numbers found become the leads of the mode's timing.
pub fn finish(net: &Netlist, mode: Mode, leads: &mut [u16; NODES])
    requires sourced { Sourced net.now.net }
    requires no_debt { mode_closed mode net.now.net ≡ false }
    requires found { Found net.now.net (mode_ends mode net.now.net) leads.old }
    ensures { LeadsIn net.now.net (mode_timing mode net.now.net) leads.new }
{
    let base = origin(net);
    for v in 0..net.node_count() {
        leads[v] = timed(net, mode, base, v, leads[v]);
    }
}
