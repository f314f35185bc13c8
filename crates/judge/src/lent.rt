// A log judged over what the caller lends: buffers of any length, of which only the named sizes are touched, and the tally by value.
ghost use Rattle.std.specs.Prelude.{◌≡◌, ◌≤◌, length};
ghost use Rattle.fields.specs.Limits.{cells, log_fields};
ghost use Rattle.judge.specs.Judges.{Judges, shown};
ghost use Rattle.judge.specs.Lendings.{LongEnough, SameBuffers, SameSizes, lent_in};
ghost use Rattle.judge.specs.Replays.{Copies};
ghost use Rattle.rules.specs.Judging.{judged};
ghost use Rattle.rules.specs.Log.{located, run_bytes};
ghost use Rattle.rules.specs.Run.{live_count};
ghost use Rattle.rules.specs.State.{fresh, fresh_tally, heap_selectors, state_of};

use super::Judged;
use super::buffers::Buffers;
use super::lent_heap::LentHeap;
use super::run::{Ran, run};
use fields::{Refusal, ShortLog};
use heap::copy_front;
use rules::{Heap, Tally, Verdict};

// A call that is refused at no field: the tally stays as it was lent.
pub fn declined(why: Refusal, tally: Tally) -> Judged
    ensures { result ≡ record { verdict = Verdict.Declined why; tally = tally } }
{
    Judged {
        verdict: Verdict::Declined(why),
        tally,
    }
}

// The run over lists of the heap's sizes, from the fresh state whatever they held, and the tally that it leaves.
fn run_fresh(
    log: ShortLog<'_>,
    out: &mut [u8],
    selectors: &mut [u16],
    numbers: &mut [u32],
    status: &mut [u8],
) -> (Ran, Tally)
    requires { (length selectors.old ≡ heap_selectors) × ((length numbers.old ≡ cells) × (length status.old ≡ cells)) }
    ensures told { result.0.verdict ≡ located log.entry.bytes.now (run_bytes log_fields log.entry.bytes.now fresh).verdict }
    ensures left { state_of result.0.board result.1 selectors.new numbers.new status.new ≡ (run_bytes log_fields log.entry.bytes.now fresh).state }
    ensures counted { result.1.live ≡ live_count status.new }
    ensures copies { Copies log.entry.bytes.now fresh out.old out.new }
{
    selectors.fill(Heap::UNSET);
    numbers.fill(0);
    status.fill(Heap::NEVER_USED);
    let mut heap = LentHeap {
        selectors,
        numbers,
        status,
        tally: Tally::fresh(),
    };
    let ran = run(log, out, &mut heap);
    (ran, heap.tally)
}

// The run over exactly the named sizes of what is lent. What lies past them stays.
pub fn run_lent(log: ShortLog<'_>, out: &mut [u8], buffers: &mut Buffers<'_>) -> Judged
    requires { LongEnough (lent_in buffers.old fresh_tally) }
    ensures shows { (tally : Tally) → judged result.verdict (lent_in buffers.new result.tally) ≡ shown log.entry.bytes.now (lent_in buffers.old tally) }
    ensures copies { Copies log.entry.bytes.now fresh out.old out.new }
    ensures same_sizes { (tally : Tally) → SameSizes (lent_in buffers.old tally) (lent_in buffers.new tally) }
    ensures same_buffers { SameBuffers buffers.old buffers.new }
{
    let (ran, tally) = run_fresh(
        log,
        out,
        &mut buffers.selectors[..Heap::SELECTORS],
        &mut buffers.numbers[..Heap::CELLS],
        &mut buffers.status[..Heap::CELLS],
    );
    copy_front(buffers.pointers, ran.board.pointers);
    copy_front(buffers.variables, ran.board.variables);
    Judged {
        verdict: ran.verdict,
        tally,
    }
}

#[tactic(auto, using(crate::proofs::Lending::judged_too_long, crate::proofs::Lending::judged_too_short))]
pub fn judge_log(log: &[u8], buffers: &mut Buffers<'_>, tally: Tally) -> Judged
    ensures judges { Judges log.now (lent_in buffers.old tally) result.verdict (lent_in buffers.new result.tally) }
    ensures same_buffers { SameBuffers buffers.old buffers.new }
{
    let Ok(short) = ShortLog::of(log) else {
        return declined(Refusal::LogTooLong, tally);
    };
    if !buffers.are_long_enough() {
        return declined(Refusal::BufferTooShort, tally);
    }
    run_lent(short, &mut [], buffers)
}
