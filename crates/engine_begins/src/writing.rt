// Numbers written into the working system.
ghost use Rattle.std.specs.Prelude.{◌≡◌, ◌≤◌, nat_abs, pos, get_or, length};
ghost use Rattle.definitions.specs.Tables.{write_to};
ghost use Rattle.engine_spec.specs.Beside.{coefficient_limit};
ghost use Rattle.engine_spec.specs.Engine.{fill_to};
ghost use Rattle.engine_begins.specs.Writing.{Combines, combined_at};

use engine_checks::operations;

// The first n coefficients of a map.
pub fn copy(coefs: &[i32], n: usize, equations: &mut [i32])
    requires { (n ≤ length coefs.now) × (n ≤ length equations.old) }
    ensures { equations.new ≡ fill_to n equations.old 0 (λ k. get_or coefs.now k (pos 0)) }
{
    equations[..n].copy_from_slice(&coefs[..n]);
}

// The first n numbers of a list.
pub fn copy_rows(rows: &[u32], n: usize, basis: &mut [u32])
    requires { (n ≤ length rows.now) × (n ≤ length basis.old) }
    ensures { basis.new ≡ write_to n basis.old 0 (λ k. get_or rows.now k 0) }
{
    for i in 0..n {
        basis[i] = rows[i];
    }
}

// u times the equation from place x and t times that from place y, in the place of the first.
pub fn combine(equations: &mut [i32], q: usize, x: usize, y: usize, u: i32, t: i32)
    requires { Combines q x y u t equations.old }
    ensures { equations.new ≡ fill_to q equations.old x (combined_at x y u t equations.old) }
{
    for j in 0..q {
        equations[x + j] = narrow(operations::combined(u, equations[x + j], t, equations[y + j]));
    }
}

fn narrow(v: i64) -> i32
    requires { nat_abs v ≤ coefficient_limit }
    ensures { result ≡ v }
{
    v as i32
}
