// The columns of a system: whether each is in the profile of single-file maps, and the nodes between which it runs.
ghost use Rattle.std.specs.Prelude.{◌≡◌, ◌*◌, ◌≤◌, ◌<◌, length};
ghost use Rattle.definitions.specs.System.{column};
ghost use Rattle.calls.specs.Paper.{check_of};
ghost use Rattle.single_order.specs.Rows.{map_of, place_below};
ghost use Rattle.single_spec.specs.Profile.{is_unit, in_profile, node_of, check26};

use calls::Refusal;

// The first column outside the profile: refusal 26.
pub fn check(p: usize, q: usize, coefs: &[i32]) -> Result<(), Refusal>
    requires { p * q ≤ length coefs.now }
    ensures { check_of result ≡ check26 (map_of p q coefs.now) }
{
    for j in 0..q {
        if !in_profile(p, q, coefs, j) {
            return Err(Refusal::Column(j + 1));
        }
    }
    Ok(())
}

// Whether column `j` has one 1, one -1 and otherwise zeros, or is all zeros.
fn in_profile(p: usize, q: usize, coefs: &[i32], j: usize) -> bool
    requires { (j < q) × (p * q ≤ length coefs.now) }
    ensures { result ≡ in_profile p (column (map_of p q coefs.now) j) }
{
    let mut ones: usize = 0;
    let mut minus_ones: usize = 0;
    for i in 0..p {
        match coefs[i * q + j] {
            1 => ones += 1,
            -1 => minus_ones += 1,
            0 => {}
            _ => return false,
        }
    }
    ones == minus_ones && ones <= 1
}

// The equation at which column `j` has its 1, or with `minus` its -1.
pub fn node(p: usize, q: usize, coefs: &[i32], j: usize, minus: bool) -> Option<usize>
    requires { (j < q) × (p * q ≤ length coefs.now) }
    ensures { result ≡ place_below p (node_of minus (map_of p q coefs.now) j) }
{
    (0..p).find(|i| is_unit(coefs[*i * q + j], minus))
}

// Whether `x` is 1, or with `minus` -1.
fn is_unit(x: i32, minus: bool) -> bool
    ensures { result ≡ is_unit minus x }
{
    x == if minus { -1 } else { 1 }
}
