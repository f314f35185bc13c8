// The calls that judge and replay a log.
// Stay calls over slices, the board's and the heap's each apart: in C each slice is a pointer and a length.
ghost use Rattle.std.specs.Prelude.{◌≡◌};
ghost use Rattle.capi.specs.Judging.{judge_call, left};
ghost use Rattle.capi.specs.Replaying.{replay_call, replay_left};

use super::telling::{NO_ROOM, has_room, tally_in, tell};
use judge::{Buffers, judge_log, replay_log};

#[tactic(auto, using(crate::proofs::Calls::judge_no_room))]
#[unsafe(no_mangle)]
pub extern "C" fn thawhazel_judge(
    log: &[u8],
    pointers: &mut [u16],
    selectors: &mut [u16],
    variables: &mut [u32],
    numbers: &mut [u32],
    status: &mut [u8],
    tally: &mut [u32],
    answer: &mut [u32],
) -> u32
    ensures { left result pointers.new selectors.new variables.new numbers.new status.new tally.new answer.new ≡ judge_call log.now pointers.old selectors.old variables.old numbers.old status.old tally.old answer.old }
{
    if !has_room(tally, answer) {
        return NO_ROOM;
    }
    let mut buffers = Buffers {
        pointers,
        selectors,
        variables,
        numbers,
        status,
    };
    let judged = judge_log(log, &mut buffers, tally_in(tally));
    tell(judged, tally, answer)
}

#[tactic(auto, using(crate::proofs::Calls::replay_no_room))]
#[unsafe(no_mangle)]
pub extern "C" fn thawhazel_replay(
    log: &[u8],
    out: &mut [u8],
    pointers: &mut [u16],
    selectors: &mut [u16],
    variables: &mut [u32],
    numbers: &mut [u32],
    status: &mut [u8],
    tally: &mut [u32],
    answer: &mut [u32],
) -> u32
    ensures { replay_left out.new (left result pointers.new selectors.new variables.new numbers.new status.new tally.new answer.new) ≡ replay_call log.now out.old pointers.old selectors.old variables.old numbers.old status.old tally.old answer.old }
{
    if !has_room(tally, answer) {
        return NO_ROOM;
    }
    let mut buffers = Buffers {
        pointers,
        selectors,
        variables,
        numbers,
        status,
    };
    let judged = replay_log(log, out, &mut buffers, tally_in(tally));
    tell(judged, tally, answer)
}
