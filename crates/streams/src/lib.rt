// Reading what a program is given, and writing what it gives, whole or as far as it goes.
#![tactic(auto)]

ghost use Rattle.std.specs.Prelude.{◌≢◌, ◌<◌, ◌≤◌, length, take, IfOk, IfErr, OnOk, OnErr};
ghost use Rattle.std.specs.IoError.{error_kind};
ghost use Rattle.std.specs.Io.{ReadsAtMost, WritesAtMost};
ghost use Rattle.std.specs.Io.KnownBytes.{Appends, Consumes, IsAtEnd, ReadConsumes, WriteAppends};
ghost use Rattle.streams.specs.Streams.{AppendsFront, ConsumesFront};

use std::io;
use std::io::{Error, ErrorKind, Read, Write};

#[cfg(test)]
mod tests;

// A read or a write, and another where a signal interrupts it. No function over a closure, which is no plainer: what the closure does to reader and room would have to go
// through its step into both contracts.
macro_rules! uninterrupted {
    ($call:expr) => {{
        for _ in 0..u64::MAX {
            match $call {
                Err(error) if error.kind() == ErrorKind::Interrupted => {}
                answer => return answer,
            }
        }
        Err(Error::from(ErrorKind::TimedOut))
    }};
}

// One read, and another where a signal interrupts it.
fn read_some<R: Read>(from: &mut R, room: &mut [u8]) -> io::Result<usize>
    ensures bound { ReadsAtMost result room.new }
    ensures bytes { ReadConsumes (R.remaining from.old) (R.remaining from.new) result room.new }
    ensures retried { IfErr result (λ e. error_kind e ≢ ErrorKind.Interrupted) }
{
    uninterrupted!(from.read(room))
}

// Reads until the room is full or the input ends: how many bytes. Where the reader's bytes are known, that many of them now stand at the front of the room, and it has lost them.
// After a failed read, too, what was read before it stands at the front of the room.
pub fn read_full<R: Read>(from: &mut R, room: &mut [u8]) -> io::Result<usize>
    ensures within { IfOk result (λ n. n ≤ length room.new) }
    ensures bytes { IfOk result (λ n. Consumes (R.remaining from.old) (R.remaining from.new) (take n room.new)) }
    ensures end { IfOk result (λ n. n < length room.new → IsAtEnd (R.remaining from.new)) }
    ensures failed { OnErr result (ConsumesFront (R.remaining from.old) (R.remaining from.new) room.new) }
    ensures retried { IfErr result (λ e. error_kind e ≢ ErrorKind.Interrupted) }
{
    let mut n: usize = 0;
    // A read gives some bytes, and not one: no range counts them.
    while n < room.len() {
        let got = read_some(from, &mut room[n..])?;
        if got == 0 {
            return Ok(n);
        }
        n += got;
    }
    Ok(n)
}

// One write, and another where a signal interrupts it.
fn write_some<W: Write>(to: &mut W, bytes: &[u8]) -> io::Result<usize>
    ensures bound { WritesAtMost result bytes.now }
    ensures bytes { WriteAppends (W.contents to.old) (W.contents to.new) result bytes.now }
    ensures retried { IfErr result (λ e. error_kind e ≢ ErrorKind.Interrupted) }
{
    uninterrupted!(to.write(bytes))
}

// Writes all bytes. Where a write fails, or takes nothing, a front of them has been written, and no more: std's `write_all` does not say so.
pub fn write_full<W: Write>(to: &mut W, bytes: &[u8]) -> io::Result<()>
    ensures all { OnOk result (Appends (W.contents to.old) (W.contents to.new) bytes.now) }
    ensures failed { OnErr result (AppendsFront (W.contents to.old) (W.contents to.new) bytes.now) }
    ensures retried { IfErr result (λ e. error_kind e ≢ ErrorKind.Interrupted) }
{
    let mut n: usize = 0;
    // As above: a write takes some bytes.
    while n < bytes.len() {
        let taken = write_some(to, &bytes[n..])?;
        if taken == 0 {
            return Err(Error::from(ErrorKind::WriteZero));
        }
        n += taken;
    }
    Ok(())
}
