// The order of a hint, looked over while it is taken: a node is placed only where all that it reads is placed.
ghost use Rattle.std.specs.Prelude.{◌≡◌, ◌≤◌, length};
ghost use Rattle.netlist.specs.Net.{Net, in_clock, Sourced};
ghost use Rattle.netlist.specs.Checks.{WellFormed};
ghost use Rattle.circuit.specs.Circuit.{net_of, order_of, Circuit};
ghost use Rattle.circuit.specs.Order.{Complete};
ghost use Rattle.order.specs.Order.{flags_in, order_in, Placed};

use super::{PLACING, keep_order, place_if, settle};
use areas::read_at;
use circuit::Netlist;

// Tries the nodes of a hint, in its order, and gives how many are placed.
fn place_hinted(net: &Netlist, hint: &[u16], area: &mut [u16; PLACING]) -> usize
    requires sourced { Sourced net.now.net }
    requires hint { 1024 ≤ length hint.now }
    requires placed { Placed in_clock net.now.net (flags_in area.old) (order_in area.old) 0 }
    ensures { Placed in_clock net.now.net (flags_in area.new) (order_in area.new) result }
{
    let n = net.node_count();
    let mut k: usize = 0;
    for i in 0..n {
        k = place_if(net, read_at(hint, i) as usize, k, area);
    }
    k
}

// Puts the nodes into the order of a hint, as far as it has each after what it reads within the clock, and the others behind. Nobody trusts the hint.
pub fn order_by(file: &[u8], net: &mut [u16], hint: &[u16])
    requires circuit { Circuit file.now net.old }
    requires formed { WellFormed (net_of file.now net.old) }
    requires hint { 1024 ≤ length hint.now }
    ensures net { net_of file.now net.new ≡ net_of file.now net.old }
    ensures circuit { Circuit file.now net.new }
    ensures complete { Complete in_clock (net_of file.now net.old) (order_of net.new) }
{
    let shown = Netlist::of(file, net);
    shown.bounds();
    let mut area = [0u16; PLACING];
    let placed = place_hinted(&shown, hint, &mut area);
    settle(&shown, placed, &mut area);
    keep_order(file, net, &area);
}
