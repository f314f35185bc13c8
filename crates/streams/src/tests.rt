// What no clause can say: that a call can succeed, and that a read or a write which fails or is interrupted in mid-stream is told
// apart from an end.
use super::{Filled, Line, Stop, read_into, write_whole};
use std::io;
use std::io::{ErrorKind, Read, Write};

// What one call of the fakes below does.
#[derive(Clone, Copy)]
enum Turn {
    Moves(usize),
    IsInterrupted,
    Fails(i32),
}

// What the calls do, one after the other.
#[derive(Drop)]
struct Turns {
    turns: [Turn; 4],
    made: usize,
}

impl Turns {
    fn new(turns: [Turn; 4]) -> Self {
        Turns { turns, made: 0 }
    }

    fn take(&mut self) -> Option<Turn> {
        let turn = self.turns.get(self.made).copied()?;
        self.made = self.made.saturating_add(1);
        Some(turn)
    }
}

// A reader whose calls go as its turns say, and which has ended after them; each byte tells which call brought it.
#[derive(Drop)]
struct Reader(Turns);

impl Read for Reader {
    fn read(&mut self, buf: &mut [u8]) -> io::Result<usize> {
        match self.0.take() {
            Some(Turn::Moves(most)) => {
                let count = most.min(buf.len());
                let call = (self.0.made & 0xff) as u8;
                for byte in buf[..count].iter_mut() {
                    *byte = call;
                }
                Ok(count)
            }
            Some(Turn::IsInterrupted) => Err(io::Error::from(ErrorKind::Interrupted)),
            Some(Turn::Fails(code)) => Err(io::Error::from_raw_os_error(code)),
            None => Ok(0),
        }
    }
}

// A writer whose calls go as its turns say, and which takes nothing after them.
#[derive(Drop)]
struct Writer {
    turns: Turns,
    taken: usize,
}

impl Writer {
    fn new(turns: [Turn; 4]) -> Self {
        Writer {
            turns: Turns::new(turns),
            taken: 0,
        }
    }
}

impl Write for Writer {
    fn write(&mut self, buf: &[u8]) -> io::Result<usize> {
        match self.turns.take() {
            Some(Turn::Moves(most)) => {
                let count = most.min(buf.len());
                self.taken = self.taken.saturating_add(count);
                Ok(count)
            }
            Some(Turn::IsInterrupted) => Err(io::Error::from_raw_os_error(4)),
            Some(Turn::Fails(code)) => Err(io::Error::from_raw_os_error(code)),
            None => Ok(0),
        }
    }

    fn flush(&mut self) -> io::Result<()> {
        Ok(())
    }
}

fn read_by(turns: [Turn; 4], bytes: &mut [u8]) -> Filled {
    read_into(&mut Reader(Turns::new(turns)), bytes)
}

// The system's number of the error, or 0.
fn code_in(error: Option<io::Error>) -> i32 {
    error.and_then(|error| error.raw_os_error()).unwrap_or(0)
}

#[test]
fn reads_to_an_end_that_was_seen(rt: HostRuntime) {
    let mut bytes = [0u8; 6];
    let turns = [
        Turn::Moves(2),
        Turn::IsInterrupted,
        Turn::Moves(1),
        Turn::Moves(0),
    ];
    let read = read_by(turns, &mut bytes);
    assert_eq!(rt; read.length, 3);
    assert!(rt; matches!(read.stop, Stop::Ended));
    assert!(rt; read.whole().is_ok());
    assert_eq!(rt; bytes, [1, 1, 3, 0, 0, 0]);
}

#[test]
fn reads_until_full(rt: HostRuntime) {
    let mut bytes = [0u8; 6];
    let turns = [
        Turn::IsInterrupted,
        Turn::Moves(4),
        Turn::Moves(4),
        Turn::Fails(5),
    ];
    let read = read_by(turns, &mut bytes);
    assert_eq!(rt; read.length, 6);
    assert!(rt; read.stop.is_full());
    assert!(rt; read.whole().is_ok());
    assert_eq!(rt; bytes, [2, 2, 2, 2, 3, 3]);
}

#[test]
fn takes_no_failure_for_an_end(rt: HostRuntime) {
    let mut bytes = [0u8; 6];
    let turns = [
        Turn::Moves(2),
        Turn::Moves(1),
        Turn::Fails(21),
        Turn::Moves(0),
    ];
    let read = read_by(turns, &mut bytes);
    assert_eq!(rt; read.length, 3);
    assert!(rt; matches!(read.stop, Stop::Broken(_)));
    assert_eq!(rt; code_in(read.whole().err()), 21);
    assert_eq!(rt; bytes, [1, 1, 2, 0, 0, 0]);
}

#[test]
fn writes_whole(rt: HostRuntime) {
    let turns = [
        Turn::Moves(2),
        Turn::IsInterrupted,
        Turn::Moves(1),
        Turn::Moves(9),
    ];
    let mut writer = Writer::new(turns);
    assert!(rt; write_whole(&mut writer, b"abcdef").is_ok());
    assert_eq!(rt; writer.taken, 6);
}

#[test]
fn tells_a_failed_write(rt: HostRuntime) {
    let turns = [
        Turn::Moves(2),
        Turn::Fails(28),
        Turn::Moves(4),
        Turn::Moves(4),
    ];
    let mut writer = Writer::new(turns);
    let put = write_whole(&mut writer, b"abcdef");
    assert_eq!(rt; code_in(put.err()), 28);
    assert_eq!(rt; writer.taken, 2);
    let turns = [
        Turn::Moves(1),
        Turn::Moves(1),
        Turn::Moves(1),
        Turn::Moves(1),
    ];
    let mut writer = Writer::new(turns);
    let put = write_whole(&mut writer, b"abcdef");
    assert!(rt; matches!(put, Err(error) if error.kind() == ErrorKind::WriteZero));
    assert_eq!(rt; writer.taken, 4);
}

#[test]
fn writes_a_long_line_in_parts(rt: HostRuntime) -> io::Result<()> {
    let turns = [
        Turn::Moves(5_000),
        Turn::Moves(5_000),
        Turn::IsInterrupted,
        Turn::Moves(5_000),
    ];
    let mut line = Line::new(Writer::new(turns));
    line.write_all(&[b'x'; 9_000])?;
    let writer = line.end()?;
    assert_eq!(rt; writer.taken, 9_000);
    assert_eq!(rt; writer.turns.made, 4);
    Ok(())
}

#[test]
fn tells_a_line_that_is_cut_short(rt: HostRuntime) {
    let turns = [
        Turn::Moves(5_000),
        Turn::Moves(1_000),
        Turn::Fails(28),
        Turn::Moves(5_000),
    ];
    let mut line = Line::new(Writer::new(turns));
    let put = line.write_all(&[b'x'; 9_000]);
    assert_eq!(rt; code_in(put.err()), 28);
}
