// The row of a node, by what it is.
ghost use Rattle.std.specs.Prelude.{◌≡◌, cond, ◌<◌};
ghost use Rattle.netlist.specs.Net.{size};
ghost use Rattle.layout.specs.NewRow.{entry_node, register_node, constant_node, choose_node, RowOf};

use circuit::codes::{CHOOSE, CONSTANT, REGISTER};
use circuit::{Netlist, Row};

// The number of a new row: a ROM's is its reset word, and any other's stays.
fn held(memory: bool, word: u16, number: u16) -> u16
    ensures { result ≡ cond memory word number }
{
    if memory { word } else { number }
}

// Old node u, where a ROM is clocked: its code is one more. Kinds follow no pattern, so there is no branch on them.
pub fn entry_row(net: &Netlist, u: usize, word: u16, sources: [u16; 3]) -> Row
    requires { u < size net.now.net }
    ensures { RowOf result (entry_node net.now.net u word sources) }
{
    // For proofs: a circuit's words tell that a part's number is a byte.
    net.parts();
    let number = held(net.is_memory(u), word, net.number(u) as u16);
    Row {
        code: (net.code(u) + usize::from(net.is_async_rom(u))) as u16,
        width: net.width(u) as u16,
        count: net.source_count(u) as u16,
        sources,
        number,
        table: net.table(u) as u16,
    }
}

// The three rows below stay literals: one constructor for all would take the code, the count, the sources and the number, and be the literal again.

// A register, of a wire or of the chain.
pub fn register_row(width: u16, word: u16, from: u16) -> Row
    requires { width < 256 }
    ensures { RowOf result (register_node width word from) }
{
    Row {
        code: REGISTER as u16,
        width,
        count: 1,
        sources: [from, 0, 0],
        number: word,
        table: 0,
    }
}

// A constant.
pub fn constant_row(width: u16, value: u16) -> Row
    requires { width < 256 }
    ensures { RowOf result (constant_node width value) }
{
    Row {
        code: CONSTANT as u16,
        width,
        count: 0,
        sources: [0, 0, 0],
        number: value,
        table: 0,
    }
}

// A gate that chooses.
pub fn choose_row(width: u16, sources: [u16; 3]) -> Row
    requires { width < 256 }
    ensures { RowOf result (choose_node width sources) }
{
    Row {
        code: CHOOSE as u16,
        width,
        count: 3,
        sources,
        number: 0,
        table: 0,
    }
}
