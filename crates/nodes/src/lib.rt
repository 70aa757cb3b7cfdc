// Reads the content of a node field.
#![tactic(auto)]

pub mod good;
pub mod kind;

ghost use Rattle.std.specs.Prelude.{◌≡◌, ◌+◌, ◌*◌, ◌<◌, ◌≤◌, length, ltb};
ghost use Rattle.lists.specs.Paths.{pick};
ghost use Rattle.words.specs.Words.{word};
ghost use Rattle.words.specs.Gates.{operands_of};
ghost use Rattle.netlist.specs.NodeField.{op_number, plain_op, sources_from};

use words::{Op, operand_count, word_at};

// The operations that hold more than their number.
pub const CONSTANT: u8 = 0;

pub const PART: u8 = 10;

// The operation that is its number alone. No TryFrom: whoever calls knows that the number is one, and 0 and 10 tell only half of an operation.
pub fn plain_op(k: u8) -> Op
    requires some { 0 < k }
    requires known { k < 12 }
    ensures { result ≡ plain_op k }
{
    match k {
        1 => Op::Not,
        2 => Op::And,
        3 => Op::Or,
        4 => Op::Xor,
        5 => Op::Add,
        6 => Op::Subtract,
        7 => Op::Equal,
        8 => Op::Less,
        9 => Op::Choose,
        _ => Op::Join,
    }
}

// The number of an operation: it is the index into the table of twelve counts.
pub fn op_index(op: Op) -> usize
    ensures number { result ≡ op_number op }
    ensures few { result < 12 }
{
    match op {
        Op::Constant(_) => CONSTANT as usize,
        Op::Not => 1,
        Op::And => 2,
        Op::Or => 3,
        Op::Xor => 4,
        Op::Add => 5,
        Op::Subtract => 6,
        Op::Equal => 7,
        Op::Less => 8,
        Op::Choose => 9,
        Op::Part(_) => PART as usize,
        Op::Join => 11,
    }
}

// The number of sources of an operation, by the table of twelve.
pub fn op_sources(op: Op) -> usize
    ensures { result ≡ operands_of op }
{
    operand_count(op_index(op))
}

// The word at a place, or 0 where i is not below n.
fn word_if(s: &[u8], at: usize, i: usize, n: usize) -> u16
    requires { i < n → at + 1 < length s.now }
    ensures { result ≡ pick (ltb i n) (word s.now at) 0 }
{
    if i < n { word_at(s, at) } else { 0 }
}

// The sources of a node's record.
pub type Sources = [u16; 3];

// At most three sources, from the place of the first.
pub fn sources_from(s: &[u8], at: usize, n: usize) -> Sources
    requires room { at + 2 * n ≤ length s.now }
    requires few { n ≤ 3 }
    ensures { result ≡ sources_from s.now at n }
{
    let first = word_if(s, at, 0, n);
    let second = word_if(s, at + 2, 1, n);
    let third = word_if(s, at + 4, 2, n);
    [first, second, third]
}
