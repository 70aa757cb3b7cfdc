// The code of an element: an operation of a gate has its own, from GATE on. The numbers between are kinds that have none.
// Numbers and no enum, since a code is a word of the row (`code_of` of the definitions), and what asks for kinds in no pattern compares it without a branch. Where no time
// hangs on it, `element` tells them apart.
pub const INPUT: usize = 0;

pub const OUTPUT: usize = 1;

pub const REGISTER: usize = 2;

pub const ASYNC_ROM: usize = 3;

pub const CLOCKED_ROM: usize = 4;

pub const GATE: usize = 8;

pub const CONSTANT: usize = 8;

pub const NOT: usize = 9;

pub const AND: usize = 10;

pub const OR: usize = 11;

pub const XOR: usize = 12;

pub const ADD: usize = 13;

pub const SUBTRACT: usize = 14;

pub const EQUAL: usize = 15;

pub const LESS: usize = 16;

pub const CHOOSE: usize = 17;

pub const PART: usize = 18;

pub const JOIN: usize = 19;
