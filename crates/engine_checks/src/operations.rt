// Whether a row operation may be made: u times equation r and t times equation s in the place of equation r.
ghost use Rattle.std.specs.Prelude.{◌||◌, ◌≡◌, ◌+◌, ◌*◌, ◌≤◌, nat_abs, ◌+ℤ◌, ◌*ℤ◌};
ghost use Rattle.engine_spec.specs.Beside.{SmallEquation, coefficient_limit};
ghost use Rattle.engine_checks.specs.Operating.{combines_small, operation_by};

use crate::signs;

pub fn is_operation(equations: &[i32], q: usize, r: usize, s: usize, u: i32, t: i32) -> bool
    requires { SmallEquation q equations.now (r * q) × SmallEquation q equations.now (s * q) }
    ensures { result ≡ operation_by q r s u t equations.now }
{
    u != 0 && (r != s || t == 0) && combines_small(equations, q, r * q, s * q, u, t)
}

// Whether no coefficient of the sum leads out of the limit, of the equations from places x and y.
fn combines_small(equations: &[i32], q: usize, x: usize, y: usize, u: i32, t: i32) -> bool
    requires { SmallEquation q equations.now x × SmallEquation q equations.now y }
    ensures { result ≡ combines_small q x y u t equations.now }
{
    (0..q).all(|j| signs::is_small(combined(u, equations[x + j], t, equations[y + j])))
}

// u times x and t times y.
pub fn combined(u: i32, x: i32, t: i32, y: i32) -> i64
    requires { (nat_abs x ≤ coefficient_limit) × (nat_abs y ≤ coefficient_limit) }
    ensures { result ≡ (u *ℤ x) +ℤ (t *ℤ y) }
{
    i64::from(u) * i64::from(x) + i64::from(t) * i64::from(y)
}
