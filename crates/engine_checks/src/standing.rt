// What each call checks before its work.
ghost use Rattle.std.specs.Prelude.{◌≡◌, ◌*◌, ◌≤◌, length};
ghost use Rattle.engine_spec.specs.Calls.{combine_checks, row_limit, take_checks};
ghost use Rattle.calls.specs.Paper.{check_of};
ghost use Rattle.engine_beside.specs.Records.{work_of};
ghost use Rattle.engine_checks.specs.Standing.{Roomed, map_checks, standing, start_checks_by, start_from_checks_by};

use crate::{operations, order, sizes, taking};
use calls::Refusal;
use checks::coefficients;
use engine_beside::Record;

// A start, with room for `most` rows in the basis: refusals 1, 2, 3, 4 and 7.
pub fn check_start(
    p: usize,
    q: usize,
    coefs: &[i32],
    equations: usize,
    most: usize,
) -> Result<(), Refusal>
    ensures { check_of result ≡ start_checks_by p q coefs.now most equations }
{
    check_map(p, q, coefs, equations, most)?;
    coefficients::check(coefs)
}

// A start from n rows: 4 also of these, and 6 before 7.
pub fn check_start_from(
    p: usize,
    q: usize,
    coefs: &[i32],
    n: usize,
    rows: &[u32],
    equations: usize,
    most: usize,
) -> Result<(), Refusal>
    requires { most ≤ row_limit }
    ensures { check_of result ≡ start_from_checks_by p q coefs.now n rows.now most equations }
{
    check_map(p, q, coefs, equations, most)?;
    if most < n {
        return Err(Refusal::TableLength);
    }
    if !order::is_list(rows, n, q) {
        return Err(Refusal::OutOfOrder);
    }
    coefficients::check(coefs)
}

// What every start checks of the map: refusals 1, 2, 3 and 4.
fn check_map(
    p: usize,
    q: usize,
    coefs: &[i32],
    equations: usize,
    most: usize,
) -> Result<(), Refusal>
    ensures { check_of result ≡ map_checks p q coefs.now most equations }
{
    sizes::check(p, q)?;
    if coefs.len() != p * q {
        return Err(Refusal::CoefficientCount);
    }
    if equations < p * q || most < q {
        return Err(Refusal::TableLength);
    }
    Ok(())
}

// A call on a run: refusals 1, 2, 4 and 6.
pub fn check_standing(
    p: usize,
    q: usize,
    equations: &[i32],
    basis: &[u32],
    table: &[u32],
    most: usize,
    room: usize,
    r: Record,
) -> Result<(), Refusal>
    requires { Roomed q most room (length basis.now) (length table.now) }
    ensures { check_of result ≡ standing p q most room (work_of equations.now basis.now table.now r) }
{
    sizes::check(p, q)?;
    if equations.len() < p * q || most < q {
        return Err(Refusal::TableLength);
    }
    if !order::in_order(p, q, equations, basis, table, most, room, r) {
        return Err(Refusal::OutOfOrder);
    }
    Ok(())
}

// The begin of a stage: 32 and 33 besides.
pub fn check_take(
    p: usize,
    q: usize,
    equations: &[i32],
    basis: &[u32],
    table: &[u32],
    most: usize,
    room: usize,
    r: Record,
    e: usize,
    f: usize,
) -> Result<(), Refusal>
    requires { Roomed q most room (length basis.now) (length table.now) }
    ensures { check_of result ≡ take_checks p q most room e f (work_of equations.now basis.now table.now r) }
{
    check_standing(p, q, equations, basis, table, most, room, r)?;
    if !taking::is_left(p, e, r.equation, r.done) {
        return Err(Refusal::NotLeft);
    }
    if f != q
        && !(taking::is_fresh(equations, p, q, e, f, r.done, r.cap)
            && taking::is_alone(basis, r.count.0, q, f))
    {
        return Err(Refusal::NotFresh);
    }
    Ok(())
}

// A row operation: 32 and 34 besides.
pub fn check_combine(
    p: usize,
    q: usize,
    equations: &[i32],
    basis: &[u32],
    table: &[u32],
    most: usize,
    room: usize,
    run: Record,
    r: usize,
    s: usize,
    u: i32,
    t: i32,
) -> Result<(), Refusal>
    requires { Roomed q most room (length basis.now) (length table.now) }
    ensures { check_of result ≡ combine_checks p q most room r s u t (work_of equations.now basis.now table.now run) }
{
    check_standing(p, q, equations, basis, table, most, room, run)?;
    if !taking::is_left(p, r, run.equation, run.done) || p <= s {
        return Err(Refusal::NotLeft);
    }
    if !operations::is_operation(equations, q, r, s, u, t) {
        return Err(Refusal::NotOperation);
    }
    Ok(())
}
