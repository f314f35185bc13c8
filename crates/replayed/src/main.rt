// Writes the replay of the log on standard input to standard output, and nothing there where the log is not accepted; the verdict's
// line goes to standard error. What is written is proved in the crates below. Its stored input is document 01's case L.
#![tactic(auto)]

ghost use Rattle.console.specs.Memories.{printed};
ghost use Rattle.replayed.specs.Written.{front_if_accepted, replayed, written_of};
ghost use Rattle.std.specs.Io.KnownBytes.{Appends};
ghost use Rattle.std.specs.Prelude.{◌≤◌, IfOk, length};

use console::{Failure, Memory, answer_log, finish};
use fields::Log;
use rules::Verdict;
use std::io::Write;
use std::process::ExitCode;
use streams::{write_line, write_whole};

// A replay is as long as its log, and stands at the output's front.
fn write_replay<W: Write + Drop>(
    mut to: W,
    verdict: Verdict,
    log: &[u8],
    output: &[u8],
) -> Result<W, Failure>
    requires { length log.now ≤ length output.now }
    ensures { IfOk result (λ writer. Appends (W.contents to) (W.contents writer) (front_if_accepted verdict log.now output.now)) }
{
    match verdict {
        Verdict::Accepted(..) => {
            write_whole(&mut to, &output[..log.len()]).map_err(Failure::Output)?;
            Ok(to)
        }
        _ => Ok(to),
    }
}

// The bound on the log stays a clause, as at `answer_log` of console.
fn answer<O: Write + Drop, E: Write + Drop>(
    output: O,
    error: E,
    log: &[u8],
) -> Result<(O, E), Failure>
    requires { length log.now ≤ 45057 }
    ensures replay { IfOk result (λ writers. Appends (O.contents output) (O.contents writers.0) (written_of log.now)) }
    ensures verdict { IfOk result (λ writers. Appends (E.contents error) (E.contents writers.1) (printed (replayed log.now).verdict)) }
{
    let mut out = [0u8; Log::ROOM];
    let verdict = Memory::fresh().replay(log, &mut out);
    let output = write_replay(output, verdict, log, &out)?;
    let error = write_line(error, verdict).map_err(Failure::Error)?;
    Ok((output, error))
}

fn main(rt: HostRuntime) -> ExitCode {
    let answered = answer_log(&mut rt.stdin(), |log| {
        answer(rt.stdout(), rt.stderr(), log).map(|_| ())
    });
    finish(rt.stderr(), answered)
}
