// One pointer word. Every number is read as a word, so nothing is asked of one.
ghost use Rattle.std.specs.Prelude.{◌≡◌, ◌+◌};
ghost use Rattle.rules.specs.Words.{after_free, cell_of, invalidated, is_unset, is_valid};

use rules::Heap;

#[tactic(auto, unfolding(rules::specs::Words::is_valid))]
pub fn is_valid(word: u16) -> bool
    ensures { result ≡ is_valid word }
{
    word < Heap::INVALID
}

#[tactic(auto, unfolding(rules::specs::Words::cell_of))]
pub fn cell_of(word: u16) -> u16
    ensures { result ≡ cell_of word }
{
    word % Heap::INVALID
}

#[tactic(auto, unfolding(rules::specs::Words::is_unset))]
pub fn is_unset(word: u16) -> bool
    ensures { result ≡ is_unset word }
{
    cell_of(word) == Heap::UNSET
}

// The word without its validity. The cell number stays.
#[tactic(auto, unfolding(rules::specs::Words::invalidated, rules::specs::Words::is_valid))]
pub fn invalidate(word: u16) -> u16
    ensures { result ≡ invalidated word }
{
    if is_valid(word) {
        word + Heap::INVALID
    } else {
        word
    }
}

// The word after a cell was freed, given what that adds to the cell's own number. A valid word that holds the cell is that number, so
// that the word itself is compared; and the mark is added to it, so that a sweep needs no choice between two words.
#[tactic(auto, unfolding(rules::specs::Words::after_free, rules::specs::Words::cell_of, rules::specs::Words::invalidated, rules::specs::Words::is_valid))]
pub fn after_free(cell: u16, mark: u16, word: u16) -> u16
    requires { cell + mark ≡ invalidated cell }
    ensures { result ≡ after_free cell word }
{
    if word == cell { word + mark } else { word }
}
