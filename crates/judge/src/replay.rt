// A log's replay written over what the caller lends: 1, 2, 15, then as judging.
ghost use Rattle.std.specs.Prelude.{◌≡◌, ◌≤◌, length};
ghost use Rattle.judge.specs.Lendings.{LongEnough, SameBuffers, lent_in};
ghost use Rattle.judge.specs.Replays.{Replays, written};
ghost use Rattle.rules.specs.Replaying.{replayed};
ghost use Rattle.rules.specs.State.{fresh_tally};

use super::Judged;
use super::buffers::Buffers;
use super::lent::{declined, run_lent};
use fields::{Refusal, ShortLog};
use rules::{Tally, Verdict};

// The log is judged before a byte is written, so that the output of one that is not accepted stays.
fn replay_lent(log: ShortLog<'_>, out: &mut [u8], buffers: &mut Buffers<'_>) -> Judged
    requires room { length log.bytes.now ≤ length out.old }
    requires long_enough { LongEnough (lent_in buffers.old fresh_tally) }
    ensures replays { (tally : Tally) → replayed result.verdict out.new (lent_in buffers.new result.tally) ≡ written log.entry.bytes.now out.old (lent_in buffers.old tally) }
    ensures same_buffers { SameBuffers buffers.old buffers.new }
{
    let judged = run_lent(log, &mut [], buffers);
    match judged.verdict {
        Verdict::Accepted(_, _, _) => run_lent(log, out, buffers),
        _ => judged,
    }
}

#[tactic(auto, using(crate::proofs::Replaying::replayed_too_long, crate::proofs::Replaying::replayed_too_short, crate::proofs::Replaying::replayed_no_room))]
pub fn replay_log(log: &[u8], out: &mut [u8], buffers: &mut Buffers<'_>, tally: Tally) -> Judged
    ensures replays { Replays log.now out.old (lent_in buffers.old tally) result.verdict out.new (lent_in buffers.new result.tally) }
    ensures same_buffers { SameBuffers buffers.old buffers.new }
{
    let Ok(short) = ShortLog::of(log) else {
        return declined(Refusal::LogTooLong, tally);
    };
    if !buffers.are_long_enough() {
        return declined(Refusal::BufferTooShort, tally);
    }
    if out.len() < log.len() {
        return declined(Refusal::OutputTooShort, tally);
    }
    replay_lent(short, out, buffers)
}
