// The planned netlist as a circuit: the tables as they came, and each node as it is planned.
#![tactic(auto)]

mod added;
pub mod reset;
mod rows;

ghost use Rattle.std.specs.Prelude.{◌≡◌, ◌*◌, ◌≤◌, ◌<◌, length};
ghost use Rattle.circuit.specs.Circuit.{circuit_words, net_of, Circuit};
ghost use Rattle.behaviour.specs.Run.{zero_word};
ghost use Rattle.retiming.specs.Gates.{gated_with};
ghost use Rattle.retiming.specs.Modes.{mode_timing};
ghost use Rattle.plan.specs.Areas.{sources_in};
ghost use Rattle.layout.specs.Planned.{PlannedBy};
ghost use Rattle.layout.specs.PlannedNode.{read_by};
ghost use Rattle.layout.specs.Layout.{IsPlanned, new_node};
ghost use Rattle.layout.specs.NewRow.{RowOf};

use added::gate_row;
use circuit::{Netlist, Row, copy_head, push_row};
use plan::{PLAN, SOURCES};
use rows::{entry_row, register_row};
use steering::Steered;

// What the new netlist is laid from: the old one, the plan with its gates, the plan's area, and the reset words.
#[derive(Clone, Copy)]
struct Layout<'a, 'f, 'n> {
    net: &'a Netlist<'f, 'n>,
    made: Steered,
    plan: &'a [u16; PLAN],
    words: &'a [u16; 1024],
}

// What planned node i reads at its p-th operand, where p is below n; else 0.
fn read_by(plan: &[u16; PLAN], i: usize, n: usize, p: usize) -> u16
    requires node { i < 1024 }
    requires operand { p < 3 }
    ensures { result ≡ read_by (sources_in plan.now) (3 * i) n p }
{
    if p < n { plan[SOURCES + 3 * i + p] } else { 0 }
}

// The row of the i-th node of the new netlist, as it is planned.
fn planned_row(from: &Layout, i: usize) -> Row
    requires planned { IsPlanned from.now }
    requires few { from.now.made.total ≤ 1024 }
    requires node { i < from.now.made.total }
    ensures { RowOf result (new_node from.now i) }
{
    let owner = from.plan[i] as usize;
    let word = from.words[i];
    if i < from.made.entries {
        let n = from.net.source_count(owner);
        let first = read_by(from.plan, i, n, 0);
        let second = read_by(from.plan, i, n, 1);
        let third = read_by(from.plan, i, n, 2);
        return entry_row(from.net, owner, word, [first, second, third]);
    }
    if i < from.made.wired {
        let width = from.net.width(owner) as u16;
        return register_row(width, word, read_by(from.plan, i, 1, 0));
    }
    gate_row(from, i)
}

// The circuit of the new netlist.
pub fn lay_circuit(
    net: &Netlist,
    made: Steered,
    plan: &[u16; PLAN],
    words: &[u16; 1024],
    new: &mut [u16],
)
    requires planned { PlannedBy net.now.net made plan.now words.now }
    requires few { made.total ≤ 1024 }
    requires room { circuit_words ≤ length new.old }
    ensures net { let N = net.now.net in net_of net.now.file new.new ≡ gated_with N (mode_timing made.mode N) (zero_word N) }
    ensures circuit { Circuit net.now.file new.new }
{
    let from = Layout {
        net,
        made,
        plan,
        words,
    };
    let (file, old) = net.parts();
    copy_head(file, old, new);
    for i in 0..made.total {
        push_row(new, i, planned_row(&from, i));
    }
}
