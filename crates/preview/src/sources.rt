// The registers by source, in a lent list of two bytes a number.
ghost use Rattle.std.specs.Prelude.{◌≡◌, ◌++◌, ◌+◌, ◌*◌, ◌≤◌, ◌<◌, length, replicate, drop};
ghost use Rattle.words.specs.Words.{word, put_word};
ghost use Rattle.netlist.specs.Net.{size};
ghost use Rattle.retiming.specs.Rewrite.{root};
ghost use Rattle.retiming.specs.RegistersLast.{RegistersLast};
ghost use Rattle.retiming.specs.Preview.{source_bytes};
ghost use Rattle.preview.specs.Counting.{Follows, Zeroed};

use circuit::Netlist;
use words::{put_word, word_at};

// Sets the first n bytes to 0.
fn clear(list: &mut [u8], n: usize)
    requires { n ≤ length list.old }
    ensures { list.new ≡ replicate n 0 ++ drop n list.old }
{
    list[..n].fill(0);
}

// One more at number u.
fn add_one(list: &mut [u8], u: usize)
    requires few { u < 1024 }
    requires inside { 2 * u + 1 < length list.old }
    requires room { word list.old (2 * u) < 65535 }
    ensures { list.new ≡ put_word list.old (2 * u) (word list.old (2 * u) + 1) }
{
    let count = word_at(list, 2 * u);
    put_word(list, 2 * u, count + 1);
}

// Where the wire of register v comes from, from where that of the register before it does.
fn wire_source(net: &Netlist, sources: usize, v: usize, before: usize) -> usize
    requires last { RegistersLast net.now.net sources }
    requires behind { sources ≤ v }
    requires inside { v < size net.now.net }
    requires follows { Follows net.now.net sources v before }
    ensures root { result ≡ root net.now.net v }
    ensures source { result < sources }
{
    let u = net.source(v, 0);
    if u < sources { u } else { before }
}

// Counts each register at the source of its wire. The registers of a wire stand one after the other, from source to reader, so one pass finds all sources.
fn count_registers(net: &Netlist, sources: usize, list: &mut [u8])
    requires last { RegistersLast net.now.net sources }
    requires room { 2 * sources ≤ length list.old }
    requires zeroed { Zeroed list.old sources }
    ensures { list.new ≡ source_bytes net.now.net ++ drop (2 * sources) list.old }
{
    let mut from: usize = 0;
    for v in sources..net.node_count() {
        from = wire_source(net, sources, v, from);
        add_one(list, from);
    }
}

// Writes the numbers of a rewritten netlist; the bytes behind them stay.
pub fn list_sources(net: &Netlist, sources: usize, list: &mut [u8])
    requires last { RegistersLast net.now.net sources }
    requires room { 2 * sources ≤ length list.old }
    ensures { list.new ≡ source_bytes net.now.net ++ drop (2 * sources) list.old }
{
    clear(list, 2 * sources);
    count_registers(net, sources, list);
}
