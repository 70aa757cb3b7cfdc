// Check 7: the width rules, by a node's code. (A `match` on the element is shorter. It was tried: on netlists of all kinds the check of a file took up to 9 % longer,
// past the bar of 3 %, since its jumps are not foreseen as well.)
ghost use Rattle.std.specs.Prelude.{◌≡◌, true, ◌&&◌, ℕ, ◌<◌, ◌≤◌};
ghost use Rattle.lists.specs.Lists.{lowest};
ghost use Rattle.netlist.specs.Net.{Net, size, element_at, width_at, source, is_memory};
ghost use Rattle.netlist.specs.Verdict.{widths_right, bad_width};
ghost use Rattle.circuit.specs.Code.{code_of, Coded};
ghost use Rattle.rules.specs.Sides.{sides};

use circuit::Netlist;
use circuit::codes::{AND, ASYNC_ROM, CHOOSE, CLOCKED_ROM, EQUAL, PART};

// The width rule of a code with one source at most, no ROM's.
fn lone_widths(code: usize, w: u8, a: u8) -> bool
    requires coded { Coded code }
    requires few { code ≤ 9 }
    requires no_async { code ≡ 3 → ⊥ }
    requires no_clocked { code ≡ 4 → ⊥ }
    ensures { (b c : ℕ) → result ≡ sides code w a b c }
{
    // An input port and a constant have none: they have the codes that 8 divides.
    code % 8 == 0 || a == w
}

// The width rule of a code with two sources, no join's. Two of them compare.
fn two_widths(code: usize, w: u8, a: u8, b: u8) -> bool
    requires two { 9 < code }
    requires few { code ≤ 16 }
    ensures { (c : ℕ) → result ≡ sides code w a b c }
{
    if code >= EQUAL {
        a == b && w == 1
    } else {
        a == w && b == w
    }
}

// The width rule of node v, a ROM of width w whose source has width a.
fn memory_widths(net: &Netlist, v: usize, w: u8, a: u8) -> bool
    requires node { v < size net.now.net }
    requires memory { is_memory (element_at net.now.net v) ≡ true }
    ensures { let N = net.now.net in ((ws : ℕ → ℕ) → ws 0 ≡ a → result ≡ widths_right N.tables (element_at N v) w ws) }
{
    let k = net.table(v);
    a == net.address_bits(k) && w == net.word_width(k)
}

// The width rule of node v, a part of width w whose source has width a: its number is its lowest bit.
fn part_widths(net: &Netlist, v: usize, w: u8, a: u8) -> bool
    requires node { v < size net.now.net }
    requires code { 18 ≡ code_of (element_at net.now.net v) }
    ensures { let N = net.now.net in ((ws : ℕ → ℕ) → ws 0 ≡ a → result ≡ widths_right N.tables (element_at N v) w ws) }
{
    net.number(v) + (w as usize) <= (a as usize)
}

// The width of node u; past the last 1, as the definitions say.
fn width_at(net: &Netlist, u: usize) -> u8
    ensures { result ≡ width_at net.now.net u }
{
    if u < net.node_count() {
        net.width(u) as u8
    } else {
        1
    }
}

// The width rule of node v, a gate of width w with two sources or three, the first of width a.
fn gate_widths(net: &Netlist, v: usize, code: usize, w: u8, a: u8) -> bool
    requires node { v < size net.now.net }
    requires code { code ≡ code_of (element_at net.now.net v) }
    requires two { 9 < code }
    requires no_part { code ≡ 18 → ⊥ }
    requires width { let N = net.now.net in a ≡ width_at N (source N v 0) }
    ensures { let N = net.now.net in result ≡ widths_right N.tables (element_at N v) w (λ p. width_at N (source N v p)) }
{
    let b = width_at(net, net.source(v, 1));
    if code < CHOOSE {
        return two_widths(code, w, a, b);
    }
    if code == CHOOSE {
        let c = width_at(net, net.source(v, 2));
        return a == 1 && b == w && c == w;
    }
    // A join.
    (a as u32) + (b as u32) == (w as u32)
}

// The width rule of node v by its code.
fn width_rule(net: &Netlist, v: usize) -> bool
    requires { v < size net.now.net }
    ensures { let N = net.now.net in result ≡ widths_right N.tables (element_at N v) (width_at N v) (λ p. width_at N (source N v p)) }
{
    let code = net.code(v);
    let w = net.width(v) as u8;
    let a = width_at(net, net.source(v, 0));
    match code {
        ASYNC_ROM | CLOCKED_ROM => memory_widths(net, v, w, a),
        PART => part_widths(net, v, w, a),
        _ => {
            if code < AND {
                lone_widths(code, w, a)
            } else {
                gate_widths(net, v, code, w, a)
            }
        }
    }
}

fn bad_width(net: &Netlist, v: usize) -> bool
    requires { v < size net.now.net }
    ensures { result ≡ bad_width net.now.net v }
{
    !width_rule(net, v)
}

// The lowest node that check 7 refuses, or the number of nodes.
pub fn lowest_bad_width(net: &Netlist) -> usize
    ensures { let N = net.now.net in result ≡ lowest (size N) (bad_width N) }
{
    let n = net.node_count();
    for v in 0..n {
        if bad_width(net, v) {
            return v;
        }
    }
    n
}
