// The wires of each ROM, linked from the first to the last, so that its reset words are found without a look at all wires.
ghost use Rattle.std.specs.Prelude.{◌≡◌, List, ℕ, ◌+◌, ◌<◌, ◌≤◌};
ghost use Rattle.wiring.specs.Wiring.{ends_in, clocks_in, heads_in};
ghost use Rattle.wiring.specs.Links.{LinkedFrom};

use super::{CLOCKS, ENDS, HEADS, NONE, WIRES};
use areas::{at_or, put};

// Links wire k, where it has a clock, with the next one that ends at the same node. Its link stands where its clock stood.
fn link(wires: &mut [u16; WIRES], count: usize, k: usize)
    requires count { count ≤ 3072 }
    requires wire { k < count }
    ensures linked { (clocks : List ℕ) → LinkedFrom (ends_in wires.old) clocks count (heads_in wires.old) (clocks_in wires.old) (k + 1)
        → LinkedFrom (ends_in wires.old) clocks count (heads_in wires.new) (clocks_in wires.new) k }
    ensures ends { ends_in wires.new ≡ ends_in wires.old }
{
    if wires[CLOCKS + k] < NONE {
        let u = wires[ENDS + k] as usize;
        wires[CLOCKS + k] = at_or(wires, HEADS + u, 0);
        put(wires, HEADS + u, k as u16);
    }
}

// Links all wires that have a clock.
pub fn link_wires(wires: &mut [u16; WIRES], count: usize)
    requires count { count ≤ 3072 }
    requires linked { LinkedFrom (ends_in wires.old) (clocks_in wires.old) count (heads_in wires.old) (clocks_in wires.old) count }
    ensures linked { LinkedFrom (ends_in wires.old) (clocks_in wires.old) count (heads_in wires.new) (clocks_in wires.new) 0 }
    ensures ends { ends_in wires.new ≡ ends_in wires.old }
{
    for k in (0..count).rev() {
        link(wires, count, k);
    }
}
