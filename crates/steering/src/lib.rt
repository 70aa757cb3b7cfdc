// The gates of a late start: document 02, T-05. On a wire from a late source they show its reader the old reset words, and one chain of registers steers them all.
#![tactic(auto)]

mod chain;
mod pairs;

ghost use Rattle.std.specs.Prelude.{◌≡◌, ◌+◌, ◌≤◌, ◌<◌};
ghost use Rattle.retiming.specs.Modes.{mode_timing};
ghost use Rattle.wiring.specs.Wiring.{Timed};
ghost use Rattle.plan.specs.Plan.{PlanLaid};
ghost use Rattle.steering.specs.Gated.{Steering};

use chain::chain_length;
use circuit::Netlist;
use pairs::gate_entries;
use plan::{PLAN, Plan};
use retiming::Mode;
use wires::TIMING;

// A plan with its gates: the mode, how many nodes come before the registers, how many before the gates, the registers of the chain (none where there are no gates),
// and how many nodes there are.
#[derive(Clone, Copy)]
pub struct Steered {
    pub mode: Mode,
    pub entries: usize,
    pub wired: usize,
    pub chain: usize,
    pub total: usize,
}

// What the gates are added to: a netlist, its timing, and its plan as yet without gates.
#[derive(Clone, Copy)]
struct Gating<'a> {
    net: &'a Netlist<'a, 'a>,
    timing: &'a [u16; TIMING],
    made: Steered,
}

// A chain has a constant that fills it.
fn chain_nodes(chain: usize) -> usize
    requires { chain ≤ 2051 }
    ensures some { 0 < chain → result ≡ chain + 1 }
    ensures none { chain ≡ 0 → result ≡ 0 }
    ensures few { result ≤ 2052 }
{
    if chain == 0 { 0 } else { chain + 1 }
}

// Adds the constant, the chain, and the gates with their constants. Where there are more than 1,024 nodes nothing is said of the area.
pub fn add_gates(
    net: &Netlist,
    timing: &[u16; TIMING],
    made: Plan,
    plan: &mut [u16; PLAN],
) -> Steered
    requires timed { let N = net.now.net in Timed N (mode_timing made.mode N) timing.now }
    requires laid { let N = net.now.net in PlanLaid N (mode_timing made.mode N) plan.old made.entries made.total }
    ensures steering { let N = net.now.net in
        Steering N (mode_timing made.mode N) plan.new result.entries result.wired result.chain result.total }
    ensures mode { result.mode ≡ made.mode }
{
    let ungated = Steered {
        mode: made.mode,
        entries: made.entries,
        wired: made.total,
        chain: 0,
        total: made.total,
    };
    if 1024 < made.total {
        return ungated;
    }
    match made.mode {
        Mode::Plain => ungated,
        Mode::Late => {
            let chain = chain_length(net, made.mode, timing);
            let from = Gating {
                net,
                timing,
                made: ungated,
            };
            let total = gate_entries(&from, made.total + chain_nodes(chain), plan);
            Steered {
                chain,
                total,
                ..ungated
            }
        }
    }
}
