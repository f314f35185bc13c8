// Judging a log of pointer commands over what the caller lends, and writing its replay.
// One field's step, its checks and its effects stand in private modules: judging one field against a heap of the caller's making is not offered.
#![tactic(auto)]

mod acts;
mod buffers;
mod checks;
mod copies;
mod effects;
mod lent;
mod lent_heap;
mod looks;
mod plays;
mod replay;
mod run;
mod step;

pub use acts::act_of;
pub use buffers::Buffers;
pub use lent::judge_log;
pub use replay::replay_log;
use rules::{Tally, Verdict};

// What is said of a log, and the tally afterwards.
#[derive(Clone, Copy)]
pub struct Judged {
    pub verdict: Verdict,
    pub tally: Tally,
}
