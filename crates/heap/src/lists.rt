// Lists of words, of numbers and of status bytes: one place of them read or stored, and a board's copied in.
ghost use Rattle.std.specs.Prelude.{◌≡◌, length, slice_index_or, slice_set};
ghost use Rattle.heap.specs.Boards.{with_front};
ghost use Rattle.rules.specs.State.{never_used};
ghost use Rattle.rules.specs.Words.{unset};

use rules::Heap;

// What a list of the board or the heap holds (words, numbers or status bytes), with what is read past such a list's end.
pub trait Stored: Copy {
    ghost PAST: { Self };

    const PAST: Self;
}

impl Stored for u16 {
    ghost PAST = { unset };

    const PAST: u16 = Heap::UNSET;
}

impl Stored for u32 {
    ghost PAST = { 0 };

    const PAST: u32 = 0;
}

impl Stored for u8 {
    ghost PAST = { never_used };

    const PAST: u8 = Heap::NEVER_USED;
}

pub fn item_at<T: Stored>(list: &[T], i: usize) -> T
    ensures { result ≡ slice_index_or list.now i T.PAST }
{
    list.get(i).copied().unwrap_or(T::PAST)
}

pub fn set_item<T: Copy>(list: &mut [T], i: usize, item: T)
    ensures { list.new ≡ slice_set list.old i item }
{
    if i < list.len() {
        list[i] = item;
    }
}

// An array over the front of a list that has room for it. What lies past it stays. It is taken by value: a reference to
// the board's arrays would make the run keep the board in memory through its loop.
pub fn copy_front<T: Copy, const N: usize>(list: &mut [T], from: [T; N])
    ensures { list.new ≡ with_front N from list.old }
{
    if N <= list.len() {
        list[..N].copy_from_slice(&from);
    }
}
