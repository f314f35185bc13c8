// A verdict and a tally in the numbers that the calls hand back.
ghost use Rattle.std.specs.Prelude.{◌≡◌, ◌≤◌, length};
ghost use Rattle.capi.specs.Fronts.{front};
ghost use Rattle.capi.specs.Judging.{Tells, has_room, kind_of, tally_in};
ghost use Rattle.rules.specs.Verdicts.{line_of};

use super::fronts::put_front;
use judge::Judged;
use rules::{Printed, Tally, Verdict};

// Fields done, mallocs done, cells live.
// Stay numbers of a list: C lends it so.
const TALLY: usize = 3;

// What a call about a log returns.
// Stay numbers: C gets them, by the names in include/thawhazel.h.
const ACCEPTED: u32 = 0;

const RACE: u32 = 1;

const REFUSED: u32 = 2;

// The tally or the answer is too short: nothing is looked at or touched.
pub const NO_ROOM: u32 = 3;

pub fn has_room(tally: &[u32], answer: &[u32]) -> bool
    ensures { result ≡ has_room tally.now answer.now }
{
    TALLY <= tally.len() && Printed::NUMBERS <= answer.len()
}

pub fn tally_in(tally: &[u32]) -> Tally
    requires { 3 ≤ length tally.now }
    ensures { result ≡ tally_in tally.now }
{
    Tally {
        fields: tally[0],
        mallocs: tally[1],
        live: tally[2],
    }
}

fn kind_of(verdict: Verdict) -> u32
    ensures { result ≡ kind_of verdict }
{
    match verdict {
        Verdict::Accepted(_, _, _) => ACCEPTED,
        Verdict::Raced(_, _, _, _) => RACE,
        Verdict::Refused(_, _, _) => REFUSED,
        Verdict::Declined(_) => REFUSED,
    }
}

// The verdict's numbers, as they are printed, at the front of the answer.
fn put_numbers(verdict: Verdict, answer: &mut [u32])
    requires { 4 ≤ length answer.old }
    ensures { answer.new ≡ front (line_of verdict).numbers answer.old }
{
    let printed = verdict.printed();
    put_front(answer, &printed.numbers[..printed.count]);
}

pub fn tell(judged: Judged, tally: &mut [u32], answer: &mut [u32]) -> u32
    requires { (3 ≤ length tally.old) × (4 ≤ length answer.old) }
    ensures { Tells judged.verdict judged.tally tally.old answer.old result tally.new answer.new }
{
    let after = judged.tally;
    put_front(tally, &[after.fields, after.mallocs, after.live]);
    put_numbers(judged.verdict, answer);
    kind_of(judged.verdict)
}
