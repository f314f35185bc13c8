// What the programs share: what they lend for a log, how a log is read and answered, and the exit status that tells whether all went
// well. No contract can name what the system's streams hold; those here speak of any reader and writer, and of their bytes where these
// are known.
#![tactic(auto)]

mod failure;
mod memory;
mod poisoned;

ghost use Rattle.std.specs.Prelude.{◌≡◌, ◌≤◌, if◌then◌else◌, is_ok, length, OnOk};
ghost use Rattle.std.specs.Fn.{FnOnceReturnsAt};
ghost use Rattle.console.specs.Logs.{AnswersOn};
ghost use Rattle.std.specs.Process.{exit_status};

pub use failure::Failure;
use fields::Log;
pub use memory::Memory;
pub use poisoned::Poisoned;
use std::io::{Read, Write};
use std::process::ExitCode;
use streams::{read_into, write_line};

// The exit status by which ./thawhazel knows that there is no whole answer, and that it was said why.
const NOT_WHOLE: u8 = 2;

// The end of a program: the status by which the launcher knows whether everything was read and written whole. Where something was
// not, a line on standard error says why, and nothing is left to do where that cannot be said.
pub fn finish<W: Write + Drop>(error: W, answered: Result<(), Failure>) -> ExitCode
    ensures { exit_status result ≡ (if is_ok answered then 0 else 2) }
{
    match answered {
        Ok(()) => ExitCode::SUCCESS,
        Err(failure) => {
            let _ = write_line(error, failure);
            ExitCode::from(NOT_WHOLE)
        }
    }
}

// What is left of the input, read away, so that whoever writes it is not cut off. The answer is out, and needs none of it.
fn drain<R: Read>(input: &mut R) {
    let mut chunk = [0u8; 4_096];
    for _ in 0..u64::MAX {
        if !read_into(input, &mut chunk).stop.is_full() {
            return;
        }
    }
}

// Reads a log and has it answered. A log that fills the room is longer than a log may be.
// The bound stays a clause: a type for it would be made here and in batch, and taken apart again in each program.
pub fn answer_log<R: Read, F: FnOnce(&[u8]) -> Result<(), Failure>>(
    input: &mut R,
    answer: F,
) -> Result<(), Failure>
    requires { (log : _) → length log.now ≤ 45057 → F.pre answer log }
    ensures { OnOk result (AnswersOn (R.remaining input.old) (λ log. FnOnceReturnsAt F.FnOnce answer log (Ok tt))) }
{
    let mut bytes = [0u8; Log::ROOM];
    let filled = read_into(input, &mut bytes);
    let length = filled.whole().map_err(Failure::Input)?;
    answer(&bytes[..length])?;
    if filled.stop.is_full() {
        drain(input);
    }
    Ok(())
}
