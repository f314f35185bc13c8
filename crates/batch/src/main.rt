// Judges the logs of a run of records on standard input, and prints for each what it leaves: verdict, replay, tally and heap, one line.
// A second program compares these lines with its own; ` spilled` at a line's end says that a place which was to stay was written.
#![tactic(auto)]

mod heap_column;
mod input;
mod lent;
mod replay_column;

ghost use Rattle.std.specs.Prelude.{◌≤◌, length};

use console::{Failure, finish};
use fields::Log;
use heap_column::write_heap;
use input::{Next, read_record};
use lent::Left;
use replay_column::write_replay;
use std::io;
use std::io::{Read, Write};
use std::process::ExitCode;
use streams::{Line, write_line};

// The bound on the log stays a clause, as at `answer_log` of console.
fn write_record<W: Write + Drop>(output: W, log: &[u8]) -> io::Result<W>
    requires { length log.now ≤ 45057 }
{
    let mut replay = [lent::BYTE; lent::OUTPUT];
    let left = Left::by(log, &mut replay);
    let verdict = left.verdict;
    let mut line = Line::new(output);
    write!(line, "{verdict}\t")?;
    write_replay(&mut line, &left, &replay[..log.len()])?;
    write!(line, "\t")?;
    write_heap(&mut line, &left)?;
    if left.has_spilled_output(&replay, log.len()) || left.has_spilled_heap() {
        write!(line, " spilled")?;
    }
    writeln!(line)?;
    line.end()
}

// An input that is cut short ends with a line that says so.
fn judge_all<R: Read, W: Write + Drop>(input: &mut R, mut output: W) -> Result<W, Failure> {
    let mut bytes = [0u8; Log::ROOM];
    for _ in 0..u64::MAX {
        match read_record(input, &mut bytes).map_err(Failure::Input)? {
            Next::Whole(length) => {
                output = write_record(output, &bytes[..length]).map_err(Failure::Output)?;
            }
            Next::Cut => return write_line(output, "cut").map_err(Failure::Output),
            Next::End => return Ok(output),
        }
    }
    Err(Failure::Input(io::Error::other("too many records")))
}

fn main(rt: HostRuntime) -> ExitCode {
    let judged = judge_all(&mut rt.stdin(), rt.stdout());
    finish(rt.stderr(), judged.map(|_| ()))
}
