// The run over a log: field by field, until one stops or the log ends, each field copied into the output before it takes effect.
ghost use Rattle.std.specs.Prelude.{◌≡◌, ◌<◌, length, drop};
ghost use Rattle.fields.specs.Limits.{log_fields};
ghost use Rattle.fields.specs.Read.{placed};
ghost use Rattle.judge.specs.LentHeaps.{SameLists, state_with};
ghost use Rattle.judge.specs.Replays.{Copies};
ghost use Rattle.judge.specs.Runs.{RanTo, ended_by, read_after};
ghost use Rattle.rules.specs.Log.{run_bytes, told_at};
ghost use Rattle.rules.specs.State.{fresh_board, fresh_tally};

use super::copies::copy_field;
use super::lent_heap::LentHeap;
use super::step::step;
use fields::{Field, Log, Refusal, ShortLog, read_field, value_length};
use rules::{Board, ReplayCell, Stop, Tally, Verdict};

#[derive(Drop)]
pub struct Ran {
    pub verdict: Verdict,
    pub board: Board,
}

// The field at a place of the log, once check 3 has let it be read.
fn read_at(log: ShortLog<'_>, at: usize, fields: u32) -> Result<(Field, u32), (Refusal, u32)>
    requires { at < length log.bytes.now }
    ensures { result ≡ placed at (read_after fields (drop at log.entry.bytes.now)) }
{
    let offset = at as u32;
    if fields < (Log::FIELDS as u32) {
        return read_field(&log.bytes[at..], offset);
    }
    Err((Refusal::TooManyFields, offset))
}

// What is told of the field that stops.
fn told(stop: Stop, fields: u32, thread: u8, offset: u32) -> Verdict
    ensures { result ≡ told_at offset (ended_by stop fields thread) }
{
    match stop {
        Stop::Race(p) => Verdict::Raced(fields, thread, p, offset),
        Stop::Refuse(why) => Verdict::Refused(why, fields, offset),
    }
}

// The board is taken back from the step at once and in one place: between a board handed over and one taken back nothing is copied
// but the board itself.
// Stays a loop over the place: a turn steps by a field's size, and the place is what a stop is told with.
pub fn run(log: ShortLog<'_>, out: &mut [u8], heap: &mut LentHeap<'_>) -> Ran
    requires { heap.old.tally ≡ fresh_tally }
    ensures ran_to { RanTo log.entry.bytes.now (run_bytes log_fields log.entry.bytes.now (state_with fresh_board heap.old)) result heap.new }
    ensures copies { Copies log.entry.bytes.now (state_with fresh_board heap.old) out.old out.new }
    ensures same_lists { SameLists heap.old heap.new }
{
    let mut board = Board::fresh();
    let mut at: usize = 0;
    while at < log.bytes.len() {
        let fields = heap.tally.fields;
        match read_at(log, at, fields) {
            Ok((field, offset)) => {
                let next = ReplayCell(heap.tally.mallocs as u16);
                copy_field(field, next, heap, at, out);
                let stepped = step(field, board, heap);
                board = stepped.board;
                match stepped.answer {
                    Ok(()) => at += Field::HEADER + usize::from(value_length(field.tag)),
                    Err(stop) => {
                        let verdict = told(stop, fields, field.thread, offset);
                        return Ran { verdict, board };
                    }
                }
            }
            Err((why, offset)) => {
                let verdict = Verdict::Refused(why, fields, offset);
                return Ran { verdict, board };
            }
        }
    }
    let Tally {
        fields,
        mallocs,
        live,
    } = heap.tally;
    let verdict = Verdict::Accepted(fields, mallocs, live);
    Ran { verdict, board }
}
