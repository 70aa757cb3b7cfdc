// The rewriting program once more, with a stored run that is refused: a program has one stored run.
#![tactic(auto)]

use retiming::Mode;
use rewrite_stream::rewrite_stream;
use std::io;

fn main(rt: HostRuntime) -> io::Result<()> {
    rewrite_stream(Mode::Plain, &mut rt.reader(), &mut io::writer(&rt))?;
    Ok(())
}
