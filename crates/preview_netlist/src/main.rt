// Reads a netlist file on standard input and writes what the rewritten file would have, a line
// `clocked ROMs: 1, registers: 2, bytes: 65, largest lead: 1` and for each of its nodes that is no register a line `registers from node 1: 2`;
// or `refused 12 0` (number, place).
#![tactic(auto)]

ghost use Rattle.std.specs.Prelude.{◌*◌, ◌≤◌, length};

use preview::preview_file;
use retiming::{Preview, Size};
use std::io;
use std::io::Write;
use streams::read_full;
use words::word_at;

// A text, and a number behind it. Two pieces, and no whole line: how much of a reply a nearly full pipe takes depends on its pieces.
fn print_number(rt: &impl Print, text: &[u8], number: u64) -> io::Result<()> {
    io::writer(rt).write_all(text)?;
    print!(rt; "{number}")
}

fn print_size(rt: &impl Print, size: Size) -> io::Result<()> {
    print_number(rt, b"clocked ROMs: ", size.clocked as u64)?;
    print_number(rt, b", registers: ", size.registers as u64)?;
    print_number(rt, b", bytes: ", size.length as u64)?;
    print_number(rt, b", largest lead: ", size.lead as u64)
}

// A line for each number of the list: registers are the last nodes, so the i-th number is node i's.
fn print_list(rt: &impl Print, list: &[u8], sources: usize) -> io::Result<()>
    requires { 2 * sources ≤ length list.now }
{
    for i in 0..sources {
        print_number(rt, b"\nregisters from node ", i as u64)?;
        print_number(rt, b": ", word_at(list, 2 * i) as u64)?;
    }
    Ok(())
}

fn print_refusal(rt: &impl Print, number: u8, place: u16) -> io::Result<()> {
    print_number(rt, b"refused ", number as u64)?;
    print_number(rt, b" ", place as u64)
}

fn main(rt: HostRuntime) -> io::Result<()> {
    // One byte more than check 1 allows, so that a longer input is refused without being read whole.
    let mut file = [0u8; 46001];
    let n = read_full(&mut rt.reader(), &mut file)?;
    // A number for each of 1,024 nodes.
    let mut list = [0u8; 2048];
    match preview_file(&file[..n], &mut list) {
        Preview::Fits(size) => {
            print_size(&rt, size)?;
            print_list(&rt, &list, size.sources as usize)?;
        }
        Preview::Refused(number, place) => print_refusal(&rt, number, place)?,
    }
    println!(rt)
}
