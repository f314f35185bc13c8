// The call that shows a field: where its bytes begin in a log, and how many they are.
ghost use Rattle.std.specs.Prelude.{◌≡◌};
ghost use Rattle.capi.specs.Showing.{show_call, show_left};

use super::fronts::put_front;
use super::single::{DONE, TOO_SHORT};
use rules::Choice;
use show::find_field;

// The field's place and its number of bytes.
// Stay two numbers of a list: C lends it so.
const PART: usize = 2;

#[tactic(auto, using(crate::proofs::OneShowing::show_short, show::proofs::Seeking::within))]
#[unsafe(no_mangle)]
pub extern "C" fn thawhazel_show(log: &[u8], number: u32, part: &mut [u32]) -> u32
    ensures { show_left result part.new ≡ show_call log.now number part.old }
{
    if part.len() < PART {
        return TOO_SHORT;
    }
    match find_field(log, log, Choice::Recording, number) {
        Ok(found) => {
            put_front(part, &[found.at as u32, found.size as u32]);
            DONE
        }
        Err((why, _)) => u32::from(why.number()),
    }
}
