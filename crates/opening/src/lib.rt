// Opens a file: reads its fields one by one, and puts them into a circuit.
#![tactic(auto)]

mod fields;

ghost use Rattle.std.specs.Prelude.{◌≡◌, List, [], ◌∷◌, ◌++◌, ℕ, ◌<◌, ◌≤◌, length, IfOk, IfErr};
ghost use Rattle.netlist.specs.Refusal.{number_of, place_of};
ghost use Rattle.netlist.specs.File.{bad, good, decode};
ghost use Rattle.circuit.specs.Circuit.{circuit_words, net_of, Circuit};
ghost use Rattle.circuit.specs.Building.{Built};
ghost use Rattle.reader.specs.Head.{Headed};
ghost use Rattle.opening.specs.Turn.{TablesRead, NodesRead, BadField};

use circuit::push_row;
use fields::row_at;
use netlist::Refusal;
use reader::{check_end, check_head, node_end, node_stands, table_end, table_stands};

// Enters the place of a table after t tables, where there is no node yet.
fn put_table(net: &mut [u16], t: usize, at: u16)
    requires few { t < 16 }
    requires room { circuit_words ≤ length net.old }
    ensures { (ts : List ℕ) → t ≡ length ts → Built ts [] net.old → Built (ts ++ (at ∷ [])) [] net.new }
{
    net[1] = (t + 1) as u16;
    net[2 + t] = at;
}

// Reads the tables, which stand behind the head: where the fields behind them begin. A bad one is 4.
fn fill_tables(file: &[u8], net: &mut [u16]) -> Result<usize, Refusal>
    requires small { length file.now ≤ 46000 }
    requires headed { Headed file.now }
    requires room { circuit_words ≤ length net.old }
    ensures ok { IfOk result (λ at. TablesRead file.now net.new at) }
    ensures err { IfErr result (λ r. BadField 4 file.now r) }
{
    net[0] = 0;
    net[1] = 0;
    let mut at: usize = 4;
    let mut t: usize = 0;
    // It ends where no table stands, which is no counter.
    while table_stands(file, at) {
        let next = table_end(file, at, t)?;
        put_table(net, t, at as u16);
        t += 1;
        at = next;
    }
    Ok(at)
}

// Reads the nodes, which stand behind the tables: where the fields behind them begin. A bad one is 5. (Their loop has no table in it: it is the one that takes time.)
fn fill_nodes(file: &[u8], net: &mut [u16], from: usize) -> Result<usize, Refusal>
    requires { TablesRead file.now net.old from }
    ensures ok { IfOk result (λ at. NodesRead file.now net.new at) }
    ensures err { IfErr result (λ r. BadField 5 file.now r) }
{
    let mut at = from;
    let mut n: usize = 0;
    // It ends where no node stands, which is no counter.
    while node_stands(file, at) {
        let next = node_end(file, at, n)?;
        push_row(net, n, row_at(file, at));
        n += 1;
        at = next;
    }
    Ok(at)
}

// Checks 1 to 5, and the circuit of the file's netlist in the words lent: each field is read once. After a refusal nothing is said of them.
pub fn fill_circuit(file: &[u8], net: &mut [u16]) -> Result<(), Refusal>
    requires { circuit_words ≤ length net.old }
    ensures reads { IfOk result (λ _. decode file.now ≡ good (net_of file.now net.new)) }
    ensures circuit { IfOk result (λ _. Circuit file.now net.new) }
    ensures err { IfErr result (λ r. decode file.now ≡ bad (number_of r) (place_of r)) }
{
    if 46000 < file.len() {
        return Err(Refusal::Long);
    }
    check_head(file)?;
    let behind = fill_tables(file, net)?;
    let end = fill_nodes(file, net, behind)?;
    check_end(file, end)
}
