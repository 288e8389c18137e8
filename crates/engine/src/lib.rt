// The engine's calls: the start, plain, for right sides and lower bounds, or from a list, a row operation and the begin of a stage. Each takes the record by
// value and returns what it leaves.
#![tactic(auto)]

ghost use Rattle.std.specs.Prelude.{◌≡◌, suc};
ghost use Rattle.engine_spec.specs.Calls as spec;
ghost use Rattle.engine_spec.specs.StartSides.{start_sides};
ghost use Rattle.engine_beside.specs.Records.{lengths_of, outcome_of, work_of};

use engine_begins::begins;
use engine_beside::{Beside, Outcome, Record};
use engine_checks::{room as capacity, sides, standing};

// The start: the map's coefficients become the working system, the unit tuples the basis. Of what is lent beside only the lengths count.
pub fn start(
    p: usize,
    q: usize,
    coefs: &[i32],
    equations: &mut [i32],
    basis: &mut [u32],
    table: &[u32],
    l: Beside,
    r: Record,
) -> Outcome
    ensures { outcome_of result equations.new basis.new table.now
        ≡ spec.start p q coefs.now (spec.basis_room q (lengths_of basis.old table.now l))
        (work_of equations.old basis.old table.now r) }
{
    let most = capacity::basis_room(q, basis.len(), l.sizes);
    match standing::check_start(p, q, coefs, equations.len(), most) {
        Err(why) => engine_beside::refused(why, r),
        Ok(()) => begins::begin(p, q, coefs, equations, basis),
    }
}

// The start for right sides and lower bounds: the map, p right sides and a bound of q numbers. An extra unknown stands first, and no row has more than 1 there.
pub fn start_sides(
    p: usize,
    q: usize,
    coefs: &[i32],
    rights: &[i32],
    lower: &[u32],
    equations: &mut [i32],
    basis: &mut [u32],
    table: &[u32],
    l: Beside,
    r: Record,
) -> Outcome
    ensures { outcome_of result equations.new basis.new table.now
        ≡ start_sides p q coefs.now rights.now lower.now
        (spec.basis_room (suc q) (lengths_of basis.old table.now l))
        (work_of equations.old basis.old table.now r) }
{
    let sizes = l.sizes;
    match sides::check(
        p,
        q,
        coefs,
        rights,
        lower,
        equations.len(),
        basis.len(),
        sizes,
    ) {
        Err(why) => engine_beside::refused(why, r),
        Ok(()) => begins::begin_sides(p, q, coefs, rights, lower, equations, basis),
    }
}

// The start from a list: further equations become the working system, the n rows handed over the basis.
pub fn start_from(
    p: usize,
    q: usize,
    coefs: &[i32],
    n: usize,
    rows: &[u32],
    equations: &mut [i32],
    basis: &mut [u32],
    table: &[u32],
    l: Beside,
    r: Record,
) -> Outcome
    ensures { outcome_of result equations.new basis.new table.now
        ≡ spec.start_from p q coefs.now n rows.now (spec.basis_room q (lengths_of basis.old table.now l))
        (work_of equations.old basis.old table.now r) }
{
    let most = capacity::basis_room(q, basis.len(), l.sizes);
    match standing::check_start_from(p, q, coefs, n, rows, equations.len(), most) {
        Err(why) => engine_beside::refused(why, r),
        Ok(()) => begins::begin_from(p, q, coefs, n, rows, equations, basis),
    }
}

// A row operation: u times equation r and t times equation s in the place of equation r.
pub fn combine(
    p: usize,
    q: usize,
    equations: &mut [i32],
    basis: &[u32],
    table: &[u32],
    l: Beside,
    run: Record,
    r: usize,
    s: usize,
    u: i32,
    t: i32,
) -> Outcome
    ensures { outcome_of result equations.new basis.now table.now
        ≡ spec.combine p q (spec.basis_room q (lengths_of basis.now table.now l))
        (spec.stage_room q (lengths_of basis.now table.now l)) r s u t
        (work_of equations.old basis.now table.now run) }
{
    let most = capacity::basis_room(q, basis.len(), l.sizes);
    let room = capacity::stage_room(
        q,
        table.len(),
        l.values,
        l.words,
        l.degrees,
        l.marks,
        l.mothers,
    );
    match standing::check_combine(p, q, equations, basis, table, most, room, run, r, s, u, t) {
        Err(why) => engine_beside::refused(why, run),
        Ok(()) => begins::operate(q, equations, run, r, s, u, t),
    }
}

// The begin of the stage of equation e, with the fresh unknown f, or with none where f is q.
pub fn take(
    p: usize,
    q: usize,
    equations: &[i32],
    basis: &mut [u32],
    table: &[u32],
    l: Beside,
    r: Record,
    e: usize,
    f: usize,
) -> Outcome
    ensures { outcome_of result equations.now basis.new table.now
        ≡ spec.take p q (spec.basis_room q (lengths_of basis.old table.now l))
        (spec.stage_room q (lengths_of basis.old table.now l)) e f
        (work_of equations.now basis.old table.now r) }
{
    let most = capacity::basis_room(q, basis.len(), l.sizes);
    let room = capacity::stage_room(
        q,
        table.len(),
        l.values,
        l.words,
        l.degrees,
        l.marks,
        l.mothers,
    );
    match standing::check_take(p, q, equations, basis, table, most, room, r, e, f) {
        Err(why) => engine_beside::refused(why, r),
        Ok(()) => begins::take(q, basis, r, e, f),
    }
}
