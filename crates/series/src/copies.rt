// Copying from one slice to another.

ghost use Rattle.std.specs.Prelude.{◌≡◌, length};

// Leaves the items of a slice in another one of as many. By a loop: the archive for C would ask for `memmove` with `copy_from_slice`.
pub fn copy<T: Copy>(from: &[T], into: &mut [T])
    requires { length into.old ≡ length from.now }
    ensures { into.new ≡ from.now }
{
    for i in 0..from.len() {
        into[i] = from[i];
    }
}
