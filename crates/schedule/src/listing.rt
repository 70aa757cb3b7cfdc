// The nodes of the lines by place, and the place of each node.
ghost use Rattle.std.specs.Prelude.{◌≡◌, ℕ, ◌+◌, ◌<◌, ◌≤◌, length, get_or};
ghost use Rattle.netlist.specs.Net.{size, element_at, in_clock};
ghost use Rattle.circuit.specs.Order.{Complete};
ghost use Rattle.evaluate.specs.Rows.{row_test};
ghost use Rattle.schedule.specs.Lines.{is_inner};
ghost use Rattle.schedule.specs.Listed.{inner_at, Listed};
ghost use Rattle.schedule.specs.Listing.{Added};
ghost use Rattle.schedule.specs.Places.{Near, PlacedFrom};

use super::{LISTED, Sizes};
use circuit::Netlist;
use circuit::codes::GATE;
use evaluate::Row;
use evaluate::lent::row_members;

// Whether node v is a gate or an asynchronous ROM, with no branch on it.
fn is_inner(net: &Netlist, v: usize) -> bool
    requires { v < size net.now.net }
    ensures { result ≡ is_inner (element_at net.now.net v) }
{
    net.is_async_rom(v) | (GATE <= net.code(v))
}

// Adds the members of a row from a place on; gives the place behind them.
fn add_row(net: &Netlist, row: Row, nodes: &mut [u16], from: usize) -> usize
    requires { from + 1024 ≤ length nodes.old }
    ensures { let N = net.now.net in Added nodes.old nodes.new from (row_test row N) (λ v. v) (size N) result }
{
    from + row_members(net, row, &mut nodes[from..])
}

// Adds the inner nodes in the circuit's order. Each is put, and the next one over it unless it counts, as `row_members` does.
fn add_inner(net: &Netlist, nodes: &mut [u16], from: usize) -> usize
    requires complete { Complete in_clock net.now.net net.now.order }
    requires room { from + 1024 ≤ length nodes.old }
    ensures { let N = net.now.net in Added nodes.old nodes.new from (inner_at N net.now.order) (λ t. get_or net.now.order t 0) (size N) result }
{
    let n = net.node_count();
    let mut end = from;
    for i in 0..n {
        let v = net.turn(i);
        nodes[end] = v as u16;
        end += is_inner(net, v) as usize;
    }
    end
}

// The nodes of all lines, and behind them the output ports, into a work area.
pub fn list_nodes(net: &Netlist, nodes: &mut [u16; LISTED]) -> Sizes
    requires { Complete in_clock net.now.net net.now.order }
    ensures { Listed net.now.net net.now.order nodes.new result }
{
    net.bounds();
    let inputs = add_row(net, Row::Inputs, nodes, 0);
    let front = add_row(net, Row::State, nodes, inputs);
    let lines = add_inner(net, nodes, front);
    let end = add_row(net, Row::Outputs, nodes, lines);
    Sizes {
        inputs,
        held: front - inputs,
        lines,
        outputs: end - lines,
    }
}

// For each node the first place where it stands, from the last place down: so what reads a node finds it before itself wherever it can,
// and that no node stands twice need not be known.
pub fn first_places(nodes: &[u16; LISTED], lines: usize, places: &mut [u16; 1024])
    requires few { lines ≤ 2048 }
    requires known { (i : ℕ) → i < lines → get_or nodes.now i 0 < 1024 }
    requires near { Near places.old }
    ensures { PlacedFrom nodes.now places.new lines 0 }
{
    for i in (0..lines).rev() {
        places[nodes[i] as usize] = i as u16;
    }
}
