// Reads a netlist file on standard input and writes `accepted 54` (its length) or `refused 12 0` (number, place).
#![tactic(auto)]

use checks::check_file;
use netlist::Answer;
use std::io;
use streams::read_full;

fn main(rt: HostRuntime) -> io::Result<()> {
    // One byte more than check 1 allows, so that a longer input is refused without being read whole.
    let mut file = [0u8; 46001];
    let n = read_full(&mut rt.reader(), &mut file)?;
    match check_file(&file[..n]) {
        Answer::Accepted(length) => println!(rt; "accepted {length}"),
        // Two pieces: how much of a reply a nearly full pipe takes depends on them.
        Answer::Refused(number, place) => {
            print!(rt; "refused ")?;
            println!(rt; "{number} {place}")
        }
    }
}
