// Whether a node's content is well made: what check 5 asks of a field.
ghost use Rattle.std.specs.Prelude.{◌≡◌, ◌+◌, ◌<◌, ◌≤◌, length, get_or};
ghost use Rattle.words.specs.Words.{word};
ghost use Rattle.netlist.specs.declared.Element.{Element};
ghost use Rattle.netlist.specs.NodeField.{extra, gate_length, op_read, gate_read, with_length, with_reset, kind_read, node_with, node_read};

use super::kind::Kind;
use super::{CONSTANT, PART};
use words::{fits_width, operand_count, word_at};

// What the content of a gate holds after its sources: a constant two bytes, a part one.
fn held(op: u8) -> usize
    ensures held { result ≡ extra op }
    ensures few { result ≤ 2 }
{
    match op {
        CONSTANT => 2,
        PART => 1,
        _ => 0,
    }
}

// How long the content of a gate is, by the number of its operation.
fn gate_length(op: u8) -> usize
    requires { op < 12 }
    ensures { result ≡ gate_length op }
{
    3 + 2 * operand_count(op as usize) + held(op)
}

// A gate: a known operation, the right length, a constant that fits.
fn op_good(s: &[u8]) -> bool
    requires { get_or s.now 1 0 ≤ 16 }
    ensures { result ≡ (node_with s.now (gate_read (op_read s.now))).good }
{
    if s.len() < 3 {
        return false;
    }
    let op = s[2];
    if 11 < op {
        return false;
    }
    if s.len() != gate_length(op) {
        return false;
    }
    if op == CONSTANT {
        fits_width(word_at(s, 3), s[1])
    } else {
        true
    }
}

// What has a reset word: the right length, and a word that fits.
fn reset_good(s: &[u8], size: usize, place: usize) -> bool
    requires width { get_or s.now 1 0 ≤ 16 }
    requires within { place + 1 < size }
    ensures { (e : Element) → result ≡ (node_with s.now (with_length s.now size (with_reset s.now (word s.now place) e))).good }
{
    if s.len() == size {
        fits_width(word_at(s, place), s[1])
    } else {
        false
    }
}

// By the kind.
fn kind_good(s: &[u8]) -> bool
    requires begun { 2 ≤ length s.now }
    requires width { get_or s.now 1 0 ≤ 16 }
    ensures { result ≡ (node_with s.now (kind_read (get_or s.now 0 0) s.now)).good }
{
    match Kind::try_from(s[0]) {
        Ok(Kind::Input) => s.len() == 2,
        Ok(Kind::Output) => s.len() == 4,
        Ok(Kind::Register) => reset_good(s, 6, 4),
        Ok(Kind::Async) => s.len() == 5,
        Ok(Kind::Clocked) => reset_good(s, 7, 5),
        Ok(Kind::Gate) => op_good(s),
        Err(_) => false,
    }
}

// A kind and a width from 1 to 16.
pub fn content_good(s: &[u8]) -> bool
    ensures { result ≡ (node_read s.now).good }
{
    if s.len() < 2 {
        return false;
    }
    let width = s[1];
    if width == 0 {
        return false;
    }
    if 16 < width {
        return false;
    }
    kind_good(s)
}
