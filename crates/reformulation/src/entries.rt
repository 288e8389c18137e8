// Whether one map is another with further unknowns, each in an equation of its own.
ghost use Rattle.std.specs.Prelude.{◌≡◌, ◌+◌, ◌*◌, ◌≤◌, ◌<◌, length};
ghost use Rattle.linear.specs.Tests.{all_to};
ghost use Rattle.reformulation_spec.specs.Reformulation as paper;
ghost use Rattle.reformulation_spec.specs.Reformulation.{is_entry, row_of};
ghost use Rattle.reformulation.specs.Given.{Laid};

pub fn extends(p: usize, q: usize, k: usize, coefs: &[i32], extended: &[i32]) -> bool
    requires { Laid p q k coefs.now extended.now }
    ensures { result ≡ paper.extends p q k (row_of q coefs.now) (row_of (q + k) extended.now) }
{
    (0..p + k).all(|i| row_extends(p, q, k, coefs, extended, i))
}

// Whether row i is such.
fn row_extends(p: usize, q: usize, k: usize, coefs: &[i32], extended: &[i32], i: usize) -> bool
    requires { Laid p q k coefs.now extended.now × (i < p + k) }
    ensures { result ≡ all_to (q + k) (λ j. is_entry p q (row_of q coefs.now) i j (row_of (q + k) extended.now i j)) }
{
    (0..q + k).all(|j| is_entry(p, q, coefs, i, j, extended[i * (q + k) + j]))
}

// Whether x may stand in column j of row i.
fn is_entry(p: usize, q: usize, coefs: &[i32], i: usize, j: usize, x: i32) -> bool
    requires { (p * q ≤ length coefs.now) × (p ≤ 32) × (q ≤ 32) × (i ≤ 64) × (j ≤ 32) }
    ensures { result ≡ is_entry p q (row_of q coefs.now) i j x }
{
    if j < q {
        p <= i || x == coefs[i * q + j]
    } else if j + p == i + q {
        x == -1
    } else {
        x == 0
    }
}
