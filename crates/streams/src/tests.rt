ghost use Rattle.std.specs.Prelude.{◌≤◌, IfOk};

use super::*;
use std::test::Fail;

// Gives and takes its text two bytes a call. The second call is interrupted, and where the text ends each call fails.
#[derive(Drop)]
struct Broken {
    text: [u8; 5],
    at: usize,
    calls: usize,
}

impl Broken {
    fn new(text: [u8; 5]) -> Broken {
        Broken {
            text,
            at: 0,
            calls: 0,
        }
    }

    // How many bytes the next call moves, if there are so many.
    fn step(&mut self, most: usize) -> io::Result<usize>
        ensures { IfOk result (λ n. n ≤ most) }
    {
        self.calls = self.calls.saturating_add(1);
        if self.calls == 2 {
            return Err(Error::from(ErrorKind::Interrupted));
        }
        if self.at >= 5 {
            return Err(Error::from(ErrorKind::ConnectionReset));
        }
        Ok(most.min(2))
    }
}

impl Read for Broken {
    fn read(&mut self, room: &mut [u8]) -> io::Result<usize> {
        let most = self.step(room.len())?;
        let rest = self.text.get(self.at..).unwrap_or(&[]);
        let n = most.min(rest.len());
        room[..n].copy_from_slice(&rest[..n]);
        self.at = self.at.saturating_add(n);
        Ok(n)
    }
}

impl Write for Broken {
    fn write(&mut self, bytes: &[u8]) -> io::Result<usize> {
        let most = self.step(bytes.len())?;
        let rest = self.text.get_mut(self.at..).unwrap_or(&mut []);
        let n = most.min(rest.len());
        rest[..n].copy_from_slice(&bytes[..n]);
        self.at = self.at.saturating_add(n);
        Ok(n)
    }

    fn flush(&mut self) -> io::Result<()> {
        Ok(())
    }
}

#[test]
fn reads_until_full_or_the_end(rt: HostRuntime) -> Result<(), Fail> {
    let mut from: &[u8] = b"abcde";
    let mut room = [0u8; 3];
    assert_eq!(rt; read_full(&mut from, &mut room)?, 3);
    assert_eq!(rt; room, *b"abc");
    assert_eq!(rt; read_full(&mut from, &mut room)?, 2);
    assert_eq!(rt; room, *b"dec");
    Ok(())
}

#[test]
fn writes_all(rt: HostRuntime) -> Result<(), Fail> {
    let mut to = Vec::new(rt.alloc());
    write_full(&mut to, b"ab")?;
    write_full(&mut to, b"cde")?;
    assert_eq!(rt; to.as_slice(), b"abcde".as_slice());
    Ok(())
}

#[test]
fn what_was_read_before_a_failure_stands(rt: HostRuntime) {
    let mut room = [0u8; 7];
    let kind = read_full(&mut Broken::new(*b"abcde"), &mut room).map_err(|e| e.kind());
    assert!(rt; kind == Err(ErrorKind::ConnectionReset));
    assert_eq!(rt; room, *b"abcde\0\0");
}

#[test]
fn what_was_written_before_a_failure_stands(rt: HostRuntime) {
    let mut to = Broken::new([0; 5]);
    let kind = write_full(&mut to, b"abcdefg").map_err(|e| e.kind());
    assert!(rt; kind == Err(ErrorKind::ConnectionReset));
    assert_eq!(rt; to.text, *b"abcde");
}

#[test]
fn a_full_writer_is_a_failure(rt: HostRuntime) {
    let mut room = [0u8; 3];
    let mut to: &mut [u8] = &mut room;
    let kind = write_full(&mut to, b"abcd").map_err(|e| e.kind());
    assert!(rt; kind == Err(ErrorKind::WriteZero));
    assert_eq!(rt; room, *b"abc");
}
