// A circuit gets rid of the tables that no node reads: document 02, T-06. The others keep their order, and each ROM reads the table that it read.
#![tactic(auto)]

ghost use Rattle.std.specs.Prelude.{◌≡◌, map, ℕ, ◌<◌, ◌≤◌, length, get_or};
ghost use Rattle.netlist.specs.Checks.{HasTables};
ghost use Rattle.netlist.specs.Trim.{renumbered, trimmed};
ghost use Rattle.circuit.specs.Circuit.{nodes_of, tables_of, net_of, Circuit};
ghost use Rattle.circuit.specs.Building.{Built};
ghost use Rattle.trimming.specs.Numbers.{Numbered};

use areas::at_or;
use circuit::Netlist;
use circuit::renumber::{keep_tables, put_table};
use rules::tables::mark_tables;

// The number of each table once the unmarked ones are left out.
fn number_tables(marks: &[u8; 17], numbers: &mut [u16; 16])
    ensures { Numbered marks.now numbers.new 16 }
{
    let mut count: u16 = 0;
    for m in 0..16 {
        numbers[m] = count;
        if 0 < marks[m] {
            count += 1;
        }
    }
}

// Writes the new number of each ROM's table. Kinds follow no pattern: to write a number into every row is cheaper than a branch, and only a ROM shows it.
fn renumber(file: &[u8], net: &mut [u16], numbers: &[u16; 16])
    requires circuit { Circuit file.now net.old }
    requires bytes { (m : ℕ) → get_or numbers.now m 0 < 256 }
    ensures { Built (tables_of net.old) (map (renumbered (λ m. get_or numbers.now m 0)) (nodes_of net.old)) net.new }
{
    for v in 0..Netlist::of(file, net).node_count() {
        let k = at_or(numbers, Netlist::of(file, net).table(v), 0);
        put_table(net, v, k);
    }
}

// Leaves out the tables that no node reads, and numbers the others anew.
pub fn trim_tables(file: &[u8], net: &mut [u16])
    requires circuit { Circuit file.now net.old }
    requires tables { HasTables (net_of file.now net.old) }
    ensures net { net_of file.now net.new ≡ trimmed (net_of file.now net.old) }
    ensures circuit { Circuit file.now net.new }
{
    let mut marks = [0u8; 17];
    mark_tables(&Netlist::of(file, net), &mut marks);
    let mut numbers = [0u16; 16];
    number_tables(&marks, &mut numbers);
    renumber(file, net, &numbers);
    keep_tables(net, &marks);
}
