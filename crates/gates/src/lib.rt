// The word of a gate, computed. 2 ^ w is the shift 1 << w, and a remainder by it is a mask in machine code.
#![tactic(auto)]

ghost use Rattle.std.specs.Prelude.{◌≡◌, ◌+◌, ◌-◌, ◌*◌, ◌/◌, ◌%◌, ◌^◌, ◌≤◌, ◌<◌};
ghost use Rattle.gates.specs.Gate.{gate_word};

use words::Op;

// How many words there are of a width.
fn power(w: u8) -> u32
    requires { w ≤ 16 }
    ensures power { result ≡ 2 ^ w }
    ensures most { result ≤ 65536 }
    ensures some { 0 < result }
{
    1u32 << w
}

// The low w bits: every operation that can overflow its width is cut off here.
fn low_bits(w: u8, x: u32) -> u16
    requires { w ≤ 16 }
    ensures { result ≡ x % 2 ^ w }
{
    (x % power(w)) as u16
}

// All bits of the width but those of a.
fn not(w: u8, a: u16) -> u16
    requires { w ≤ 16 }
    ensures { result ≡ 2 ^ w - 1 - a }
{
    (power(w) - 1).saturating_sub(a as u32) as u16
}

fn add(w: u8, a: u16, b: u16) -> u16
    requires { w ≤ 16 }
    ensures { result ≡ (a + b) % 2 ^ w }
{
    low_bits(w, (a as u32) + (b as u32))
}

// Two's complement: what b lacks to 2 ^ w is added.
fn subtract(w: u8, a: u16, b: u16) -> u16
    requires { w ≤ 16 }
    ensures { result ≡ (a + (2 ^ w - b)) % 2 ^ w }
{
    low_bits(w, (a as u32) + power(w).saturating_sub(b as u32))
}

// The w bits from bit low on. No word has a bit from 16 on, and low has no bound of its own, as a shift must have.
fn part(w: u8, low: u8, a: u16) -> u16
    requires { w ≤ 16 }
    ensures { result ≡ a / 2 ^ low % 2 ^ w }
{
    if low < 16 {
        low_bits(w, (a as u32) >> low)
    } else {
        0
    }
}

// a above b, whose width is v.
fn join(v: u8, a: u16, b: u16) -> u16
    requires width { v ≤ 16 }
    requires fits { a * 2 ^ v + b < 65536 }
    ensures { result ≡ a * 2 ^ v + b }
{
    (((a as u32) << v) + (b as u32)) as u16
}

// The word of a gate of width w on the words a, b and c; v is the width of its second source.
// That the word fits 16 bits is asked for Join's sake: with checks 5 and 7 passed, every gate's word fits its width.
#[tactic(auto, unfolding(words::specs::Gates::operate))]
pub fn gate(op: Op, w: u8, v: u8, a: u16, b: u16, c: u16) -> u16
    requires width { w ≤ 16 }
    requires second { v ≤ 16 }
    requires fits { gate_word op w v a b c < 65536 }
    ensures { result ≡ gate_word op w v a b c }
{
    match op {
        Op::Constant(k) => k,
        Op::Not => not(w, a),
        Op::And => a & b,
        Op::Or => a | b,
        Op::Xor => a ^ b,
        Op::Add => add(w, a, b),
        Op::Subtract => subtract(w, a, b),
        Op::Equal => (a == b) as u16,
        Op::Less => (a < b) as u16,
        Op::Choose => { if a == 1 { b } else { c } }
        Op::Part(low) => part(w, low, a),
        Op::Join => join(v, a, b),
    }
}
