// Judging and replaying over a tally that the caller lends, brought forward at each field: thin calls over the by-value core, the
// crate judge. Their contracts are the core's, with the tally read and left behind the reference.
#![tactic(auto)]

ghost use Rattle.judge.specs.Judges.{Judges};
ghost use Rattle.judge.specs.Lendings.{SameBuffers, lent_in};
ghost use Rattle.judge.specs.Replays.{Replays};

use judge::Buffers;
use rules::{Tally, Verdict};

pub fn judge(log: &[u8], buffers: &mut Buffers<'_>, tally: &mut Tally) -> Verdict
    ensures judges { Judges log.now (lent_in buffers.old tally.old) result (lent_in buffers.new tally.new) }
    ensures same_buffers { SameBuffers buffers.old buffers.new }
{
    let judged = judge::judge_log(log, buffers, *tally);
    *tally = judged.tally;
    judged.verdict
}

pub fn replay(log: &[u8], out: &mut [u8], buffers: &mut Buffers<'_>, tally: &mut Tally) -> Verdict
    ensures replays { Replays log.now out.old (lent_in buffers.old tally.old) result out.new (lent_in buffers.new tally.new) }
    ensures same_buffers { SameBuffers buffers.old buffers.new }
{
    let judged = judge::replay_log(log, out, buffers, *tally);
    *tally = judged.tally;
    judged.verdict
}
