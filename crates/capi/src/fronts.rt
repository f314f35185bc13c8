// Numbers at the front of a list.
ghost use Rattle.std.specs.Prelude.{◌≡◌, ◌≤◌, length};
ghost use Rattle.capi.specs.Fronts.{front};

pub fn put_front(list: &mut [u32], new: &[u32])
    requires { length new.now ≤ length list.old }
    ensures { list.new ≡ front new.now list.old }
{
    list[..new.len()].copy_from_slice(new);
}
