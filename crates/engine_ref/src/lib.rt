// The engine's calls as an editor uses them: the caller's own record is advanced through a reference, over the calls by value.
#![tactic(auto)]

ghost use Rattle.std.specs.Prelude.{◌≡◌, suc};
ghost use Rattle.engine_spec.specs.Calls as spec;
ghost use Rattle.engine_spec.specs.StartSides.{start_sides};
ghost use Rattle.engine_beside.specs.Records.{leaves, lengths_of, outcome_of, work_of};
ghost use Rattle.engine_stage.specs.Standing.{sides_of};
ghost use Rattle.engine_resume.specs.Continuing.{ResumeLeft};

use calls::Answer;
use engine_beside::{Beside, Record};

// The start. Of what is lent beside only the lengths count.
pub fn start(
    p: usize,
    q: usize,
    coefs: &[i32],
    equations: &mut [i32],
    basis: &mut [u32],
    table: &[u32],
    l: Beside,
    r: &mut Record,
) -> Answer
    ensures { outcome_of (leaves result r.new) equations.new basis.new table.now
        ≡ spec.start p q coefs.now (spec.basis_room q (lengths_of basis.old table.now l))
        (work_of equations.old basis.old table.now r.old) }
{
    let o = engine::start(p, q, coefs, equations, basis, table, l, *r);
    *r = o.run;
    o.answer
}

// The start for right sides and lower bounds: the map, p right sides and a bound of q numbers.
pub fn start_sides(
    p: usize,
    q: usize,
    coefs: &[i32],
    rights: &[i32],
    lower: &[u32],
    equations: &mut [i32],
    basis: &mut [u32],
    table: &[u32],
    l: Beside,
    kept: &mut Record,
) -> Answer
    ensures { outcome_of (leaves result kept.new) equations.new basis.new table.now
        ≡ start_sides p q coefs.now rights.now lower.now
        (spec.basis_room (suc q) (lengths_of basis.old table.now l))
        (work_of equations.old basis.old table.now kept.old) }
{
    let o = engine::start_sides(
        p, q, coefs, rights, lower, equations, basis, table, l, *kept,
    );
    *kept = o.run;
    o.answer
}

// The start from a list: further equations, and the n rows handed over.
pub fn start_from(
    p: usize,
    q: usize,
    coefs: &[i32],
    n: usize,
    rows: &[u32],
    equations: &mut [i32],
    basis: &mut [u32],
    table: &[u32],
    l: Beside,
    own: &mut Record,
) -> Answer
    ensures { outcome_of (leaves result own.new) equations.new basis.new table.now
        ≡ spec.start_from p q coefs.now n rows.now (spec.basis_room q (lengths_of basis.old table.now l))
        (work_of equations.old basis.old table.now own.old) }
{
    let o = engine::start_from(p, q, coefs, n, rows, equations, basis, table, l, *own);
    *own = o.run;
    o.answer
}

// A row operation: u times equation r and t times equation s in the place of equation r.
pub fn combine(
    p: usize,
    q: usize,
    equations: &mut [i32],
    basis: &[u32],
    table: &[u32],
    l: Beside,
    run: &mut Record,
    r: usize,
    s: usize,
    u: i32,
    t: i32,
) -> Answer
    ensures { outcome_of (leaves result run.new) equations.new basis.now table.now
        ≡ spec.combine p q (spec.basis_room q (lengths_of basis.now table.now l))
        (spec.stage_room q (lengths_of basis.now table.now l)) r s u t
        (work_of equations.old basis.now table.now run.old) }
{
    let o = engine::combine(p, q, equations, basis, table, l, *run, r, s, u, t);
    *run = o.run;
    o.answer
}

// The begin of the stage of equation e, with the fresh unknown f, or with none where f is q.
pub fn take(
    p: usize,
    q: usize,
    equations: &[i32],
    basis: &mut [u32],
    table: &[u32],
    l: Beside,
    r: &mut Record,
    e: usize,
    f: usize,
) -> Answer
    ensures { outcome_of (leaves result r.new) equations.now basis.new table.now
        ≡ spec.take p q (spec.basis_room q (lengths_of basis.old table.now l))
        (spec.stage_room q (lengths_of basis.old table.now l)) e f
        (work_of equations.now basis.old table.now r.old) }
{
    let o = engine::take(p, q, equations, basis, table, l, *r, e, f);
    *r = o.run;
    o.answer
}

// The continuing call: at most `budget` turns of the stage under way.
pub fn resume(
    p: usize,
    q: usize,
    equations: &[i32],
    basis: &mut [u32],
    sizes: &mut [u32],
    table: &mut [u32],
    values: &mut [i64],
    words: &mut [u64],
    degrees: &mut [u32],
    marks: &mut [u64],
    mothers: &mut [u32],
    r: &mut Record,
    budget: u64,
) -> Answer
    ensures { ResumeLeft p q budget equations.now basis.old sizes.old table.old
        (sides_of values.old words.old degrees.old marks.old mothers.old) r.old
        (leaves result r.new) basis.new sizes.new table.new
        (sides_of values.new words.new degrees.new marks.new mothers.new) }
{
    let o = engine_resume::resume(
        p, q, equations, basis, sizes, table, values, words, degrees, marks, mothers, *r, budget,
    );
    *r = o.run;
    o.answer
}
