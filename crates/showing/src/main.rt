// The program behind ./thawhazel show: prints the bytes of a field of the log on standard input in hexadecimal, a space between, or
// why there are none. Its first argument is the field's number; where there is a second, the field is that of the log's replay, and a
// log that has none gets its own verdict. What is shown is proved in the crates below. Its stored input is document 01's case C.
#![tactic(auto)]

ghost use Rattle.std.specs.Prelude.{◌≤◌, length};

use console::{Failure, Memory, answer_log, finish};
use fields::Log;
use rules::{Choice, Verdict};
use std::env::{Env, FillError};
use std::io::{Result, Write};
use std::process::ExitCode;
use streams::Line;

// No field has this number or a larger one, so that it stands for what is no number.
const NO_FIELD: u32 = Log::FIELDS as u32;

const LETTERS: usize = 16;

// A number in decimal: digits alone, so that a sign is none.
fn number_in(text: &[u8]) -> Option<u32> {
    if text.is_empty() {
        return None;
    }
    text.iter().try_fold(0u32, |number, letter| {
        let digit = char::from(*letter).to_digit(10)?;
        number.checked_mul(10)?.checked_add(digit)
    })
}

// The number that the first argument is; one that is missing or too long is no field's.
fn number_asked<R: Env>(rt: &R) -> u32
    ensures { result ≤ 4096 }
{
    let mut text = [0u8; LETTERS];
    match rt.arg(1, &mut text) {
        Ok(count) => number_in(&text[..count]).unwrap_or(NO_FIELD).min(NO_FIELD),
        Err(_) => NO_FIELD,
    }
}

// The replay's, where there is a second argument, whatever it is.
fn choice_asked<R: Env>(rt: &R) -> Choice {
    match rt.arg(2, &mut [0u8; LETTERS]) {
        Err(FillError::NotPresent) => Choice::Recording,
        _ => Choice::Replay,
    }
}

// The part's bytes, a space between.
fn write_bytes<W: Write>(line: &mut W, part: &[u8]) -> Result<()> {
    for (place, byte) in part.iter().enumerate() {
        if 0 < place {
            write!(line, " ")?;
        }
        write!(line, "{byte:02x}")?;
    }
    Ok(())
}

fn write_field<W: Write>(
    line: &mut W,
    recorded: &[u8],
    replay: &[u8],
    choice: Choice,
    number: u32,
) -> Result<()> {
    match show::find_field(recorded, replay, choice, number) {
        Ok(_) => write_bytes(line, show::show_field(recorded, replay, choice, number)),
        Err((why, _)) => {
            let verdict = Verdict::Declined(why);
            write!(line, "{verdict}")
        }
    }
}

// The bound on the log stays a clause here and below, as at `answer_log` of console.
fn write_of_replay<W: Write>(line: &mut W, log: &[u8], number: u32) -> Result<()>
    requires { length log.now ≤ 45057 }
{
    let mut out = [0u8; Log::ROOM];
    let verdict = Memory::fresh().replay(log, &mut out);
    match verdict {
        Verdict::Accepted(..) => write_field(line, log, &out[..log.len()], Choice::Replay, number),
        _ => write!(line, "{verdict}"),
    }
}

// The choice stays one: `find_field` of show takes it, and only the replay has to be written first.
fn answer<W: Write + Drop>(output: W, log: &[u8], choice: Choice, number: u32) -> Result<W>
    requires { length log.now ≤ 45057 }
{
    let mut line = Line::new(output);
    match choice {
        Choice::Recording => write_field(&mut line, log, log, choice, number)?,
        Choice::Replay => write_of_replay(&mut line, log, number)?,
    }
    writeln!(line)?;
    line.end()
}

fn main(rt: HostRuntime) -> ExitCode {
    let number = number_asked(&rt);
    let choice = choice_asked(&rt);
    let answered = answer_log(&mut rt.stdin(), |log| {
        answer(rt.stdout(), log, choice, number)
            .map(|_| ())
            .map_err(Failure::Output)
    });
    finish(rt.stderr(), answered)
}
