// The working system of a run with right sides or a lower bound: the extra unknown first.
ghost use Rattle.std.specs.Prelude.{◌≡◌, ◌+◌, ◌*◌, ◌≤◌, nat_abs, neg_ℤ, pos, get_or, length};
ghost use Rattle.engine_spec.specs.Beside.{coefficient_limit, equation_at};
ghost use Rattle.engine_spec.specs.Engine.{fill_to};
ghost use Rattle.engine_spec.specs.StartSides.{sides_system};
ghost use Rattle.engine_begins.specs.Extended.{Extending, row_of};

use engine_checks::sides;

pub fn write_system(
    p: usize,
    q: usize,
    coefs: &[i32],
    rights: &[i32],
    lower: &[u32],
    equations: &mut [i32],
)
    requires { Extending p q coefs.now rights.now lower.now (length equations.old) }
    ensures { equations.new ≡ fill_to (p * (q + 1)) equations.old 0
        (λ k. get_or (sides_system p q coefs.now rights.now lower.now) k (pos 0)) }
{
    for i in 0..p {
        let side = sides::side_at(coefs, i * q, q, rights[i], lower);
        write_row(equations, i * (q + 1), opposite(side), coefs, i * q, q);
    }
}

// A row from place `base` on: a first number, then q coefficients from place `from`.
fn write_row(equations: &mut [i32], base: usize, first: i32, coefs: &[i32], from: usize, q: usize)
    requires { (base + (q + 1) ≤ length equations.old) × (from + q ≤ length coefs.now) × (q ≤ 31) }
    ensures { equations.new ≡ fill_to (q + 1) equations.old base (row_of first coefs.now from) }
{
    equations[base] = first;
    copy(coefs, from, q, equations, base + 1);
}

// q coefficients from place `from`, written from place `to` on.
fn copy(coefs: &[i32], from: usize, q: usize, equations: &mut [i32], to: usize)
    requires { (from + q ≤ length coefs.now) × (to + q ≤ length equations.old) }
    ensures { equations.new ≡ fill_to q equations.old to (equation_at coefs.now from) }
{
    equations[to..to + q].copy_from_slice(&coefs[from..from + q]);
}

fn opposite(v: i64) -> i32
    requires { nat_abs v ≤ coefficient_limit }
    ensures { result ≡ neg_ℤ v }
{
    (-v) as i32
}
