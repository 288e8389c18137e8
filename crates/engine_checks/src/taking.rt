// Whether an equation is left, and an unknown fresh in it.
ghost use Rattle.std.specs.Prelude.{not, ◌≡◌, ◌*◌, ◌+◌, ◌≤◌, ◌<◌, length};
ghost use Rattle.definitions.specs.Tables.{at};
ghost use Rattle.engine_spec.specs.Beside.{SmallRow, SmallTable, row_at};
ghost use Rattle.engine_spec.specs.Calls.{is_alone};
ghost use Rattle.engine_spec.specs.Caps.{is_capped};
ghost use Rattle.engine_checks.specs.Taking.{free_in, fresh_by, has_unknown, left_by, unit_or_lacks, units_or_lack};

use crate::signs;
use engine_beside::degrees;

// Whether there is no stage under way, and equation e is not done.
pub fn is_left(p: usize, e: usize, equation: usize, done: u32) -> bool
    requires { p ≤ 32 }
    ensures { result ≡ left_by p e equation done }
{
    equation == p && e < p && !signs::is_done(done, e)
}

// Whether the unknown f has no cap, is in no equation done, and equation e has −1 there.
pub fn is_fresh(
    equations: &[i32],
    p: usize,
    q: usize,
    e: usize,
    f: usize,
    done: u32,
    cap: u64,
) -> bool
    requires { (p ≤ 32) × (p * q ≤ length equations.now) × (e < p) }
    ensures { result ≡ fresh_by cap p q e f equations.now done }
{
    !is_capped(cap, f) && f < q && equations[e * q + f] == -1 && free_in(equations, p, q, f, done)
}

// Whether the unknown f is the one that a cap is on.
fn is_capped(cap: u64, f: usize) -> bool
    ensures { result ≡ is_capped cap f }
{
    cap != 0 && f == 0
}

fn free_in(equations: &[i32], p: usize, q: usize, f: usize, done: u32) -> bool
    requires { (p ≤ 32) × (p * q ≤ length equations.now) × (f < q) }
    ensures { result ≡ free_in p q f equations.now done }
{
    (0..p).all(|i| !signs::is_done(done, i) || equations[i * q + f] == 0)
}

// Whether of the first m rows one has the unknown f, and only rows of degree 1.
pub fn is_alone(basis: &[u32], m: usize, q: usize, f: usize) -> bool
    requires { SmallTable q m basis.now × (f < q) }
    ensures { result ≡ is_alone q f m (at basis.now q) }
{
    has(basis, m, q, f) && units_or_lack(basis, m, q, f)
}

// Whether one of the first m rows has the unknown f.
fn has(basis: &[u32], m: usize, q: usize, f: usize) -> bool
    requires { (m * q ≤ length basis.now) × (f < q) }
    ensures { result ≡ has_unknown q f m basis.now }
{
    (0..m).any(|i| 0 < basis[i * q + f])
}

// Whether each of them lacks it or has degree 1.
fn units_or_lack(basis: &[u32], m: usize, q: usize, f: usize) -> bool
    requires { SmallTable q m basis.now × (f < q) }
    ensures { result ≡ units_or_lack q f m basis.now }
{
    (0..m).all(|i| unit_or_lacks(basis, i * q, q, f))
}

#[tactic(auto, unfolding(crate::specs::Taking::unit_or_lacks))]
fn unit_or_lacks(basis: &[u32], base: usize, q: usize, f: usize) -> bool
    requires { (q ≤ 32) × SmallRow q basis.now base × (f < q) }
    ensures { result ≡ unit_or_lacks q f (row_at basis.now base) }
{
    basis[base + f] == 0 || degrees::degree_at(basis, base, q) == 1
}
