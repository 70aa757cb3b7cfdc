// The rows that only a late start has: the constant that fills the chain, the chain, and the gates with their constants.
ghost use Rattle.std.specs.Prelude.{◌<◌, ◌≤◌, get_or};
ghost use Rattle.netlist.specs.Net.{size};
ghost use Rattle.plan.specs.Areas.{owners_in};
ghost use Rattle.layout.specs.Layout.{net_of, IsPlanned, new_node, shown_node};
ghost use Rattle.layout.specs.NewRow.{RowOf};

use super::rows::{choose_row, constant_row, register_row};
use super::{Layout, read_by};
use circuit::Row;
use plan::LATE;
use wires::NEVER;

// A constant of a wire, or its gate, which has no clock. Each is as wide as its owner.
fn shown_row(from: &Layout, i: usize) -> Row
    requires node { i < 1024 }
    requires owner { get_or (owners_in from.now.plan.now) i 0 < size (net_of from.now) }
    ensures { RowOf result (shown_node from.now i) }
{
    let width = from.net.width(from.plan[i] as usize) as u16;
    if from.plan[LATE + i] < NEVER {
        return constant_row(width, from.words[i]);
    }
    let steer = read_by(from.plan, i, 3, 0);
    let later = read_by(from.plan, i, 3, 1);
    let first = read_by(from.plan, i, 3, 2);
    choose_row(width, [steer, later, first])
}

// The row of a node behind the registers.
pub(crate) fn gate_row(from: &Layout, i: usize) -> Row
    requires planned { IsPlanned from.now }
    requires few { from.now.made.total ≤ 1024 }
    requires behind { from.now.made.wired ≤ i }
    requires node { i < from.now.made.total }
    ensures { RowOf result (new_node from.now i) }
{
    let behind = i - from.made.wired;
    if behind == 0 {
        return constant_row(1, 1);
    }
    if behind <= from.made.chain {
        return register_row(1, 0, (i - 1) as u16);
    }
    shown_row(from, i)
}
