// The rows of words that a host lends, over the circuit.
ghost use Rattle.std.specs.Prelude.{◌≡◌, true, map, ℕ, ◌*◌, ◌<◌, ◌≤◌, length, take, get_or};
ghost use Rattle.netlist.specs.Net.{size};
ghost use Rattle.netlist.specs.Checks.{WellFormed};
ghost use Rattle.behaviour.specs.Service.{bytes_of, fitting_bytes};
ghost use Rattle.evaluate.specs.Rows.{row_test, row_members, row_widths, Loaded};

use super::{Row, holds_word};
use areas::read_at;
use circuit::Netlist;
use words::{fits_width, put_word, word_at};

// Whether node v has a word in a row. (A `match` on the row: a test for each, and a closure would be no plainer.)
pub fn in_row(net: &Netlist, row: Row, v: usize) -> bool
    requires { v < size net.now.net }
    ensures { result ≡ row_test row net.now.net v }
{
    match row {
        Row::Inputs => net.is_input(v),
        Row::Outputs => net.is_output(v),
        Row::State => holds_word(net, v),
    }
}

// The nodes that have a word in a row, its members, into a work area; gives how many. Each number is put, and the next one over it unless it counts:
// the members stand among the others in no pattern, so there is no branch on them.
pub fn row_members(net: &Netlist, row: Row, members: &mut [u16]) -> usize
    requires { 1024 ≤ length members.old }
    ensures members { take result members.new ≡ row_members row net.now.net }
    ensures few { result ≤ length members.new }
{
    let n = net.node_count();
    let mut count: usize = 0;
    for v in 0..n {
        members[count] = v as u16;
        count += in_row(net, row, v) as usize;
    }
    count
}

// Loads a lent row into the words of its members, where it has just one fitting word for each of them. After `false` nothing is said of the words, a work area.
pub fn load_row(net: &Netlist, row: Row, bytes: &[u8], members: &[u16], words: &mut [u16]) -> bool
    requires formed { WellFormed net.now.net }
    requires words { size net.now.net ≤ length words.old }
    requires members { members.now ≡ row_members row net.now.net }
    ensures fitting { result ≡ fitting_bytes (row_widths row net.now.net) bytes.now }
    ensures loaded { result ≡ true → Loaded row net.now.net bytes.now words.old words.new }
{
    if bytes.len() != 2 * members.len() {
        return false;
    }
    for i in 0..members.len() {
        let v = members[i] as usize;
        let word = word_at(bytes, 2 * i);
        if !fits_width(word, net.width(v) as u8) {
            return false;
        }
        words[v] = word;
    }
    true
}

// Writes the words at some places.
pub fn store_words(members: &[u16], words: &[u16], out: &mut [u8])
    requires out { length out.old ≡ 2 * length members.now }
    requires nodes { (i : ℕ) → i < length members.now → get_or members.now i 0 < length words.now }
    ensures { out.new ≡ bytes_of (map (λ v. get_or words.now v 0) members.now) }
{
    for i in 0..members.len() {
        put_word(out, 2 * i, read_at(words, members[i] as usize));
    }
}
