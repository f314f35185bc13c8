// Judges logs over lent buffers of edge lengths, and prints the verdict and how many places of each buffer were changed.
// Every place holds beforehand a value that no judged log leaves there, so that a place which was written is seen.
#![tactic(auto)]

ghost use Rattle.std.specs.Prelude.{◌+◌, ◌≤◌};

use console::{Failure, Poisoned, finish};
use fields::Log;
use judge::Buffers;
use rules::{Board, Heap, Tally};
use std::io::{Result, Write};
use std::process::ExitCode;
use streams::write_line;

// The buffers, of which at most one is lent too short.
#[derive(Clone, Copy, PartialEq, Eq)]
enum Buffer {
    Pointers,
    Selectors,
    Variables,
    Numbers,
    Status,
}

// Document 01's case E: it is accepted, with 6 fields, 3 mallocs and 2 live cells.
const CASE_E: [u8; 52] = [
    1, 8, 0, 0, 0, 5, 0, 0, 0, 0, 0, 1, 8, 0, 0, 1, 6, 0, 0, 0, 0, 0, 5, 4, 0, 0, 0, 0, 1, 2, 2, 0,
    0, 0, 1, 8, 0, 0, 0, 5, 0, 0, 0, 0, 0, 4, 4, 0, 0, 16, 0, 0,
];

// How many places hold another value than before. No list is so long that the sum wraps; `count` is not vectorised.
fn changed<T: PartialEq + Drop>(list: &[T], before: T) -> usize {
    list.iter().fold(
        0,
        |count: usize, held| count.wrapping_add(usize::from(*held != before)),
    )
}

// How much of a buffer is lent: one place less than its size where it is the short one, else its size and what is asked beyond.
fn lent(size: usize, is_short: bool, beyond: usize) -> usize
    requires { (1 ≤ size) × ((size ≤ 2048) × (beyond ≤ 8)) }
    ensures { result ≤ size + 8 }
{
    if is_short { size - 1 } else { size + beyond }
}

// The verdict, then how many places were changed of pointers, selectors, variables, numbers and status.
fn show<W: Write + Drop>(output: W, log: &[u8], short: Option<Buffer>, beyond: usize) -> Result<W>
    requires { beyond ≤ 8 }
{
    let is_short = |buffer: Buffer| short == Some(buffer);
    let mut memory = Poisoned::new();
    let pointers = lent(Board::POINTERS, is_short(Buffer::Pointers), beyond);
    let selectors = lent(Heap::SELECTORS, is_short(Buffer::Selectors), beyond);
    let variables = lent(Board::VARIABLES, is_short(Buffer::Variables), beyond);
    let numbers = lent(Heap::CELLS, is_short(Buffer::Numbers), beyond);
    let status = lent(Heap::CELLS, is_short(Buffer::Status), beyond);
    let mut buffers = Buffers {
        pointers: &mut memory.pointers[..pointers],
        selectors: &mut memory.selectors[..selectors],
        variables: &mut memory.variables[..variables],
        numbers: &mut memory.numbers[..numbers],
        status: &mut memory.status[..status],
    };
    let verdict = judge::judge_log(log, &mut buffers, Tally::fresh()).verdict;
    let pointers = changed(&memory.pointers, Poisoned::WORD);
    let selectors = changed(&memory.selectors, Poisoned::WORD);
    let variables = changed(&memory.variables, Poisoned::NUMBER);
    let numbers = changed(&memory.numbers, Poisoned::NUMBER);
    let status = changed(&memory.status, Poisoned::STATUS);
    write_line(
        output,
        format_args!("{verdict} {pointers} {selectors} {variables} {numbers} {status}"),
    )
}

fn show_all<W: Write + Drop>(mut output: W) -> Result<W> {
    let shorts = [
        None,
        Some(Buffer::Pointers),
        Some(Buffer::Selectors),
        Some(Buffer::Variables),
        Some(Buffer::Numbers),
        Some(Buffer::Status),
    ];
    for short in shorts {
        output = show(output, &CASE_E, short, 0)?;
        output = show(output, &CASE_E, short, Poisoned::SPARE)?;
        output = show(output, &[0; Log::ROOM], short, 0)?;
    }
    Ok(output)
}

fn main(rt: HostRuntime) -> ExitCode {
    let shown = show_all(rt.stdout()).map(|_| ()).map_err(Failure::Output);
    finish(rt.stderr(), shown)
}
