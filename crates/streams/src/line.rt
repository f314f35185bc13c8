// A text on its way to a writer. It is kept in a room and written out where that is full: a line may have a hundred thousand
// characters, too many for a call of the system each.
ghost use Rattle.std.specs.Io.KnownBytes.{Appends, Keeps};
ghost use Rattle.std.specs.Fmt.{with_newline};
ghost use Rattle.std.specs.Prelude.{◌≡◌, [], IfOk, IfSome, OnOk};
ghost use Rattle.streams.specs.Lines.{fresh_line, line_contents, line_rest};

use crate::writing::write_front;
use arrayvec::ArrayVec;
use std::fmt::Display;
use std::io;
use std::io::Write;

const ROOM: usize = 4_096;

#[derive(Drop)]
pub struct Line<W> {
    to: W,
    text: ArrayVec<u8, ROOM>,
}

impl<W: Write> Line<W> {
    pub fn new(to: W) -> Self
        ensures { result ≡ fresh_line to }
    {
        Line {
            to,
            text: ArrayVec::new(),
        }
    }

    // Writes out what is kept. What a failure leaves unwritten stays.
    fn write_out(&mut self) -> io::Result<()>
        ensures bytes { Keeps (line_contents W.contents self.old) (line_contents W.contents self.new) }
        ensures whole { OnOk result (line_rest self.new ≡ []) }
    {
        let (count, written) = write_front(&mut self.to, self.text.as_slice());
        drop(self.text.drain(..count));
        written
    }

    // Writes out what is kept, and hands the writer back.
    pub fn end(mut self) -> io::Result<W>
    where
        W: Drop,
        ensures { IfOk result (λ writer. Keeps (line_contents W.contents self) (W.contents writer)) }
    {
        self.flush()?;
        let Line { to, text: _ } = self;
        Ok(to)
    }
}

impl<W: Write> Write for Line<W> {
    ghost contents = { line_contents W.contents };

    fn write(&mut self, bytes: &[u8]) -> io::Result<usize> {
        if self.text.is_full() {
            self.write_out()?;
        }
        self.text.write(bytes)
    }

    fn flush(&mut self) -> io::Result<()>
        ensures bytes { Keeps (line_contents W.contents self.old) (line_contents W.contents self.new) }
        ensures whole { OnOk result (line_rest self.new ≡ []) }
    {
        self.write_out()?;
        self.to.flush()
    }
}

// Writes a text and a line's end, whole, and hands the writer back.
pub fn write_line<W: Write + Drop, D: Display + Drop>(to: W, text: D) -> io::Result<W>
    ensures { IfOk result (λ writer. IfSome (with_newline (D.output text)) (Appends (W.contents to) (W.contents writer))) }
{
    let mut line = Line::new(to);
    writeln!(line, "{text}")?;
    line.end()
}
