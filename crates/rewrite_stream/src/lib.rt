// What a rewriting program does: it reads a file and writes the rewritten one, or the line `refused 12 0` (number, place).
#![tactic(auto)]

ghost use Rattle.std.specs.Prelude.{◌≡◌, ◌≢◌, decimal, IfOk, IfErr, OnOk, OnErr};
ghost use Rattle.std.specs.IoError.{error_kind};
ghost use Rattle.std.specs.Io.KnownBytes.{Appends};
ghost use Rattle.codec.specs.Bytes.{Bytes};
ghost use Rattle.retiming.specs.Modes.{mode_rewrite};
ghost use Rattle.rewrite_stream.specs.Read.{Answers};
ghost use Rattle.rewrite_stream.specs.Reply.{refusal_line, Replies, Fails};
ghost use Rattle.streams.specs.Streams.{AppendsFront};

use itoa::Buffer;
use netlist::Answer;
use retiming::Mode;
use rewriter::rewrite_in;
use std::io;
use std::io::{ErrorKind, Read, Write};
use streams::{read_full, write_full};

// Writes a number in decimal.
fn write_number<W: Write>(to: &mut W, number: u64) -> io::Result<()>
    ensures all { OnOk result (Appends (W.contents to.old) (W.contents to.new) (decimal number)) }
    ensures failed { OnErr result (AppendsFront (W.contents to.old) (W.contents to.new) (decimal number)) }
    ensures retried { IfErr result (λ e. error_kind e ≢ ErrorKind.Interrupted) }
{
    write_full(to, Buffer::new().format(number).as_bytes())
}

// Writes the line of a refusal.
fn write_refusal<W: Write>(to: &mut W, number: u8, place: u16) -> io::Result<()>
    ensures all { OnOk result (Appends (W.contents to.old) (W.contents to.new) (refusal_line number place)) }
    ensures failed { OnErr result (AppendsFront (W.contents to.old) (W.contents to.new) (refusal_line number place)) }
    ensures retried { IfErr result (λ e. error_kind e ≢ ErrorKind.Interrupted) }
{
    write_full(to, b"refused ")?;
    write_number(to, number as u64)?;
    write_full(to, b" ")?;
    write_number(to, place as u64)?;
    write_full(to, b"\n")
}

// Rewrites, and says besides that what it was lent is bytes: of an array that was read into, its holder knows the length alone.
fn rewrite_bytes(file: &[u8], mode: Mode, out: &mut [u8]) -> Answer
    ensures answer { result ≡ (mode_rewrite mode file.now out.old).answer }
    ensures bytes { Bytes file.now }
    ensures written { out.new ≡ (mode_rewrite mode file.now out.old).out }
{
    rewrite_in(file, mode, out)
}

// Rewrites what comes from a reader into a writer, in a mode. It answers what the rewriter says of some bytes: those that were read.
// Where it fails, no more is written than a front of that reply, and nothing before all is read.
pub fn rewrite_stream<R: Read, W: Write>(mode: Mode, from: &mut R, to: &mut W) -> io::Result<Answer>
    ensures answers { IfOk result (Answers mode) }
    ensures replies { IfOk result (Replies mode (R.remaining from.old) (R.remaining from.new) (W.contents to.old) (W.contents to.new)) }
    ensures failed { OnErr result (Fails mode (R.remaining from.old) (R.remaining from.new) (W.contents to.old) (W.contents to.new)) }
    ensures retried { IfErr result (λ e. error_kind e ≢ ErrorKind.Interrupted) }
{
    // One byte more than check 1 allows, so that a longer input is refused without being read whole.
    let mut file = [0u8; 46001];
    let n = read_full(from, &mut file)?;
    // No rewritten file is longer.
    let mut out = [0u8; 46000];
    let answer = rewrite_bytes(&file[..n], mode, &mut out);
    match answer {
        Answer::Accepted(length) => {
            write_full(to, &out[..length])?;
            Ok(answer)
        }
        Answer::Refused(number, place) => {
            write_refusal(to, number, place)?;
            Ok(answer)
        }
    }
}
