// Numbers that were read, into lent space.
ghost use Rattle.std.specs.Prelude.{◌≡◌, ◌++◌, ◌≤◌, drop, length};

// Writes `found` to the beginning of `coefs`.
pub fn copy(found: &[i32], coefs: &mut [i32])
    requires { length found.now ≤ length coefs.old }
    ensures { coefs.new ≡ found.now ++ drop (length found.now) coefs.old }
{
    coefs[..found.len()].copy_from_slice(found);
}
