// A node's row from the bytes of its field.
ghost use Rattle.std.specs.Prelude.{◌≡◌};
ghost use Rattle.netlist.specs.ScanLaws.{NodeAt};
ghost use Rattle.netlist.specs.File.{node_in};
ghost use Rattle.circuit.specs.Circuit.{row_node, Fits};

use circuit::Row;
use reader::parts::{code_at, count_by_code, held_at, sources_at};
use reader::width_at;

// The row of the node whose field stands at an offset.
pub fn row_at(file: &[u8], at: usize) -> Row
    requires { NodeAt file.now at }
    ensures fits { Fits result }
    ensures node { row_node result ≡ node_in file.now at }
{
    let code = code_at(file, at);
    let count = count_by_code(code);
    let sources = sources_at(file, at, code, count);
    let held = held_at(file, at, code);
    let width = width_at(file, at);
    Row {
        code: code as u16,
        width: width as u16,
        count: count as u16,
        sources,
        number: held.number,
        table: held.table,
    }
}
