// Reads a netlist file on standard input and writes the rewritten file, or the line `refused 12 0` (number, place).
// What the three rewriting programs share is `rewrite_stream`; each has a `main` of its own, which names the mode.
#![tactic(auto)]

use retiming::Mode;
use rewrite_stream::rewrite_stream;
use std::io;

fn main(rt: HostRuntime) -> io::Result<()> {
    rewrite_stream(Mode::Plain, &mut rt.reader(), &mut io::writer(&rt))?;
    Ok(())
}
