// The tables of a circuit get other numbers: a node's table is written, and the tables that are marked are kept.
ghost use Rattle.std.specs.Prelude.{◌<◌, ◌≤◌, length};
ghost use Rattle.circuit.specs.Circuit.{nodes_of, tables_of, Formed};
ghost use Rattle.circuit.specs.Renumbering.{Retabled, Kept};

use super::{ROW, ROWS, TABLE};

// Writes the table of node v: a ROM reads table k from now on, and what is no ROM stays what it is.
pub fn put_table(net: &mut [u16], v: usize, k: u16)
    requires formed { Formed net.old }
    requires node { v < length (nodes_of net.old) }
    requires byte { k < 256 }
    ensures { Retabled net.old v k net.new }
{
    net[ROWS + ROW * v + TABLE] = k;
}

// Keeps the tables that are marked, in their order.
pub fn keep_tables(net: &mut [u16], marks: &[u8])
    requires formed { Formed net.old }
    requires marks { length (tables_of net.old) ≤ length marks.now }
    ensures { Kept marks.now net.old net.new }
{
    let n = net[1] as usize;
    let mut kept: usize = 0;
    for k in 0..n {
        if 0 < marks[k] {
            net[2 + kept] = net[2 + k];
            kept += 1;
        }
    }
    net[1] = kept as u16;
}
