// The bytes of a number that stands at a place, low byte first.
ghost use Rattle.std.specs.Prelude.{◌≡◌, ◌+◌, ◌≤◌, drop, length};
ghost use Rattle.fields.specs.Bytes.{bytes_if};
ghost use Rattle.fields.specs.Rows.{width_if};

// As many bytes as a number has, or as many zeros where the row lacks it.
// The flag stays beside what it speaks of, here, in `put` and in `is_cell`: it is the row's (`width_if`, `is_cell` of specs/).
pub fn bytes_at<const N: usize>(bytes: &[u8], at: usize, there: bool) -> [u8; N]
    requires { at + width_if there N ≤ length bytes.now }
    ensures { result ≡ bytes_if there N (drop at bytes.now) }
{
    let mut found = [0; N];
    if there {
        found.copy_from_slice(&bytes[at..at + N]);
    }
    found
}
