// A system with right sides, extended: the extra unknown comes first, with the negated right sides as its column.
ghost use Rattle.std.specs.Prelude.{◌≡◌, ◌+◌, ◌*◌, ◌≤◌, neg_ℤ, nat_abs, length};
ghost use Rattle.definitions.specs.System.{coef_limit};
ghost use Rattle.walk.specs.ExtendLaws.{Sided, Extends, RowWritten};

// Writes its coefficients, row by row.
pub fn write(p: usize, q: usize, coefs: &[i32], rights: &[i32], wide: &mut [i32; 128])
    requires { Sided p q coefs.now rights.now × (length wide.old ≡ 128) }
    ensures { Extends p q coefs.now rights.now wide.new }
{
    for i in 0..p {
        row(q, coefs, rights, i, wide);
    }
}

// Row i of them.
fn row(q: usize, coefs: &[i32], rights: &[i32], i: usize, wide: &mut [i32; 128])
    requires { Sided (i + 1) q coefs.now rights.now × (length wide.old ≡ 128) }
    ensures { RowWritten i q coefs.now rights.now q wide.old wide.new }
{
    wide[i * (q + 1)] = negated(rights[i]);
    for j in 0..q {
        wide[i * (q + 1) + (j + 1)] = coefs[i * q + j];
    }
}

fn negated(x: i32) -> i32
    requires { nat_abs x ≤ coef_limit }
    ensures { result ≡ neg_ℤ x }
{
    -x
}
