// One field's own bytes, header and value, of a recorded log or of its replay: a part of the log that is chosen, without a copy.
// The answer and the part stay two calls of one definition: the call that hands out the part cannot fail.
#![tactic(auto)]

mod seek;

ghost use Rattle.std.specs.Prelude.{◌≡◌};
ghost use Rattle.rules.specs.Showing.{chosen, part_in, shown_in};

use fields::{Refusal, ShortLog};
use rules::{Choice, Shown};
use seek::seek;

fn chosen<'a>(choice: Choice, recorded: &'a [u8], replay: &'a [u8]) -> &'a [u8]
    ensures { result.now ≡ chosen choice recorded.now replay.now }
{
    match choice {
        Choice::Recording => recorded,
        Choice::Replay => replay,
    }
}

fn answer_in(log: &[u8], number: u32) -> Shown
    ensures { result ≡ shown_in log.now number }
{
    let Ok(short) = ShortLog::of(log) else {
        return Err((Refusal::LogTooLong, 0));
    };
    seek(short, number).ok_or((Refusal::FieldNotReached, 0))
}

// Where the field's bytes begin in the chosen log and how many they are, or why there are none.
pub fn find_field<'a>(recorded: &'a [u8], replay: &'a [u8], choice: Choice, number: u32) -> Shown
    ensures { result ≡ shown_in (chosen choice recorded.now replay.now) number }
{
    answer_in(chosen(choice, recorded, replay), number)
}

// The field's own bytes, a part of the chosen log; an empty part where `find_field` refuses.
#[tactic(auto, using(crate::proofs::Seeking::within))]
pub fn show_field<'a>(recorded: &'a [u8], replay: &'a [u8], choice: Choice, number: u32) -> &'a [u8]
    ensures { result.now ≡ part_in (chosen choice recorded.now replay.now) number }
{
    let log = chosen(choice, recorded, replay);
    match answer_in(log, number) {
        Ok(part) => &log[part.at..part.at + part.size],
        Err(_) => &log[..0],
    }
}
