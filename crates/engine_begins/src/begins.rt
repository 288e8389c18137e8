// The start, a row operation and the begin of a stage, after their checks.
ghost use Rattle.std.specs.Prelude.{◌≡◌, ◌+◌, ◌*◌, ◌≤◌, length};
ghost use Rattle.engine_beside.specs.Records.{leaves, record_of};
ghost use Rattle.calls.specs.declared.Answer.TheVariants.{Started};
ghost use Rattle.engine_begins.specs.Begins.{Begun, BegunFrom, BegunSides, Fitting, FittingList, Operated, Taken};
ghost use Rattle.engine_begins.specs.Extended.{Extending};
ghost use Rattle.engine_begins.specs.Writing.{Combines};

use crate::{extended, writing};
use calls::{Answer, Solutions, Steps};
use engine_beside::{Outcome, Record};
use engine_rows::{packing, rows};

pub fn begin(p: usize, q: usize, coefs: &[i32], equations: &mut [i32], basis: &mut [u32]) -> Outcome
    requires { Fitting p q (length coefs.now) (length equations.old) (length basis.old) }
    ensures { Begun p q coefs.now equations.old basis.old result equations.new basis.new }
{
    writing::copy(coefs, p * q, equations);
    rows::write_units(basis, q);
    begun(p, q, q, 0)
}

// The n rows handed over are the basis.
pub fn begin_from(
    p: usize,
    q: usize,
    coefs: &[i32],
    n: usize,
    rows: &[u32],
    equations: &mut [i32],
    basis: &mut [u32],
) -> Outcome
    requires { FittingList p q (length coefs.now) n (length rows.now) (length equations.old) (length basis.old) }
    ensures { BegunFrom p q coefs.now n rows.now equations.old basis.old result equations.new
        basis.new }
{
    writing::copy(coefs, p * q, equations);
    writing::copy_rows(rows, n * q, basis);
    begun(p, q, n, 0)
}

// The working system has the extra unknown first, and no row more than 1 there.
pub fn begin_sides(
    p: usize,
    q: usize,
    coefs: &[i32],
    rights: &[i32],
    lower: &[u32],
    equations: &mut [i32],
    basis: &mut [u32],
) -> Outcome
    requires { Extending p q coefs.now rights.now lower.now (length equations.old) × ((q + 1) * (q + 1) ≤ length basis.old) }
    ensures { BegunSides p q coefs.now rights.now lower.now equations.old basis.old result
        equations.new basis.new }
{
    extended::write_system(p, q, coefs, rights, lower, equations);
    rows::write_units(basis, q + 1);
    begun(p, q + 1, q + 1, 1)
}

fn begun(p: usize, q: usize, count: usize, cap: u64) -> Outcome
    ensures { result ≡ leaves Started (record_of 0 p q count 0 0 0 0 0 0 cap) }
{
    taken(0, p, q, count, 0, cap)
}

pub fn operate(
    q: usize,
    equations: &mut [i32],
    run: Record,
    r: usize,
    s: usize,
    u: i32,
    t: i32,
) -> Outcome
    requires { Combines q (r * q) (s * q) u t equations.old }
    ensures { Operated q r s u t equations.old run result equations.new }
{
    writing::combine(equations, q, r * q, s * q, u, t);
    Outcome {
        answer: Answer::Started,
        run,
    }
}

pub fn take(q: usize, basis: &mut [u32], r: Record, e: usize, f: usize) -> Outcome
    requires { r.count.0 * q ≤ length basis.old }
    ensures { Taken q e f basis.old r result basis.new }
{
    let m = r.count.0;
    let done = r.done;
    let steps = r.steps.0;
    if f < q {
        let count = packing::drop_fresh(basis, m, q, f);
        return taken(done, e, f, count, steps, r.cap);
    }
    taken(done, e, q, m, steps, r.cap)
}

fn taken(done: u32, e: usize, f: usize, count: usize, steps: u64, cap: u64) -> Outcome
    ensures { result ≡ leaves Started (record_of done e f count 0 0 0 0 0 steps cap) }
{
    let run = Record {
        done,
        equation: e,
        fresh: f,
        count: Solutions(count),
        rows: 0,
        taken: 0,
        degree: 0,
        upper: 0,
        lower: 0,
        steps: Steps(steps),
        cap,
    };
    Outcome {
        answer: Answer::Started,
        run,
    }
}
