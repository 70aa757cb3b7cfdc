// The rewriter: checks 1 to 14, and the netlist whose ROMs are all clocked, in either mode. Nothing is written before every check is passed.
#![tactic(auto)]

ghost use Rattle.std.specs.Prelude.{◌≡◌};
ghost use Rattle.netlist.specs.Refusal.{answered};
ghost use Rattle.retiming.specs.FileRewrite.{rewrite_file};
ghost use Rattle.retiming.specs.LateFile.{late_rewrite};
ghost use Rattle.retiming.specs.Modes.{mode_rewrite};

use circuit::{Netlist, WORDS};
use netlist::{Answer, Refusal};
use retime::retime_file;
use retiming::Mode;
use saving::{circuit_length, write_circuit};

// Writes the file of the new netlist, where the output is long enough for it: 14. The length is the offset behind its end field.
fn rewrite_into(file: &[u8], mode: Mode, out: &mut [u8]) -> Result<usize, Refusal>
    ensures answer { answered result ≡ (mode_rewrite mode file.now out.old).answer }
    ensures out { out.new ≡ (mode_rewrite mode file.now out.old).out }
{
    let mut words = [0u16; WORDS];
    retime_file(file, mode, &mut words)?;
    let new = Netlist::of(file, &words);
    let length = circuit_length(&new);
    if out.len() < length {
        return Err(Refusal::Out);
    }
    Ok(write_circuit(&new, out))
}

// Rewrites a file in a mode into the output: accepted with the new file's length, or the refusal, after which no byte of the output differs.
pub fn rewrite_in(file: &[u8], mode: Mode, out: &mut [u8]) -> Answer
    ensures answer { result ≡ (mode_rewrite mode file.now out.old).answer }
    ensures out { out.new ≡ (mode_rewrite mode file.now out.old).out }
{
    Answer::from(rewrite_into(file, mode, out))
}

// Document 01's rewriting.
pub fn rewrite_file(file: &[u8], out: &mut [u8]) -> Answer
    ensures answer { result ≡ (rewrite_file file.now out.old).answer }
    ensures out { out.new ≡ (rewrite_file file.now out.old).out }
{
    rewrite_in(file, Mode::Plain, out)
}

// Document 02's late start.
pub fn rewrite_late(file: &[u8], out: &mut [u8]) -> Answer
    ensures answer { result ≡ (late_rewrite file.now out.old).answer }
    ensures out { out.new ≡ (late_rewrite file.now out.old).out }
{
    rewrite_in(file, Mode::Late, out)
}
