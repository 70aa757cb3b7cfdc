// Check 17: a table that no node reads.
ghost use Rattle.std.specs.Prelude.{◌≡◌, ℕ, ◌≤◌, ◌<◌, length, get_or, set, eqb};
ghost use Rattle.lists.specs.Lists.{one, lowest};
ghost use Rattle.netlist.specs.Net.{Net, size, element_at};
ghost use Rattle.netlist.specs.Checks.{HasTables};
ghost use Rattle.netlist.specs.Verdict.{reads_table, unread_table};
ghost use Rattle.rules.specs.TableMarks.{Unmarked, TableMarks};

use circuit::Netlist;

// The table that node v reads; 16, which no table has for a number, where it is no ROM. Kinds follow no pattern: to look at the table of each is cheaper than a branch.
fn table_read(net: &Netlist, v: usize) -> usize
    requires node { v < size net.now.net }
    requires tables { HasTables net.now.net }
    ensures reads { (m : ℕ) → m < 16 → eqb result m ≡ reads_table (element_at net.now.net v) m }
    ensures few { result ≤ 16 }
{
    net.bounds();
    let table = net.table(v);
    if net.is_memory(v) { table } else { 16 }
}

// Marks place k. Tells whether it had no mark.
fn mark(marks: &mut [u8], k: usize) -> bool
    requires { k < length marks.old }
    ensures marks { marks.new ≡ set marks.old k 1 }
    ensures new { result ≡ eqb (get_or marks.old k 0) 0 }
{
    let new = marks[k] == 0;
    marks[k] = 1;
    new
}

// Marks each table that a node reads, and looks no further once all are marked. What is no ROM marks the place behind the tables, which has a mark already.
pub fn mark_tables(net: &Netlist, marks: &mut [u8])
    requires tables { HasTables net.now.net }
    requires unmarked { Unmarked marks.old }
    ensures { TableMarks net.now.net marks.new }
{
    let n = net.node_count();
    let mut left = net.table_count();
    marks[16] = 1;
    for v in 0..n {
        if left == 0 {
            return;
        }
        left -= mark(marks, table_read(net, v)) as usize;
    }
}

// The lowest table without a mark, or the number of tables.
fn lowest_unmarked(net: &Netlist, marks: &[u8]) -> usize
    requires { TableMarks net.now.net marks.now }
    ensures { let N = net.now.net in result ≡ lowest (length N.tables) (unread_table N) }
{
    let n = net.table_count();
    for m in 0..n {
        if marks[m] == 0 {
            return m;
        }
    }
    n
}

// The lowest table that check 17 refuses, or the number of tables.
pub fn lowest_unread_table(net: &Netlist) -> usize
    requires { HasTables net.now.net }
    ensures { let N = net.now.net in result ≡ lowest (length N.tables) (unread_table N) }
{
    let mut marks = [0u8; 17];
    mark_tables(net, &mut marks);
    lowest_unmarked(net, &marks)
}
