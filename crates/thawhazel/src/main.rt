// The program behind ./thawhazel: judges the log on standard input and prints its verdict, one line, as document 01 prints it.
// What is judged is proved in the crates below; here a log is read and a verdict printed. Its stored input is document 01's case C.
#![tactic(auto)]

ghost use Rattle.console.specs.Memories.{printed, verdict_of};
ghost use Rattle.std.specs.Io.KnownBytes.{Appends};
ghost use Rattle.std.specs.Prelude.{IfOk};

use console::{Failure, Memory, answer_log, finish};
use std::io::{Result, Write};
use std::process::ExitCode;
use streams::write_line;

fn answer<W: Write + Drop>(output: W, log: &[u8]) -> Result<W>
    ensures { IfOk result (λ writer. Appends (W.contents output) (W.contents writer) (printed (verdict_of log.now))) }
{
    write_line(output, Memory::fresh().judge(log))
}

fn main(rt: HostRuntime) -> ExitCode {
    let answered = answer_log(&mut rt.stdin(), |log| {
        answer(rt.stdout(), log)
            .map(|_| ())
            .map_err(Failure::Output)
    });
    finish(rt.stderr(), answered)
}
