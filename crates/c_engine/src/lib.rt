// The engine's calls on a record of words, each answer as one number: specs/Words.antt.
#![tactic(auto)]

ghost use Rattle.std.specs.Prelude.{◌≡◌, [], suc, ◌^◌, ◌<◌, ◌≤◌};
ghost use Rattle.engine_spec.specs.Calls.{row_limit};
ghost use Rattle.engine_resume.specs.Continuing.{ResumeLeft};
ghost use Rattle.calls.specs.Paper.{answer_of, number_of, values_of};
ghost use Rattle.engine_beside.specs.Records.{beside_of};
ghost use Rattle.engine_beside.specs.declared.Outcome.{Outcome as Left};
ghost use Rattle.engine_checks.specs.Standing.{start_checks_by, start_from_checks_by};
ghost use Rattle.engine_stage.specs.Standing.{sides_of};
ghost use Rattle.c_record.specs.Codes.{code};
ghost use Rattle.definitions.specs.Answers.{refuse, ◌then◌};
ghost use Rattle.engine_checks.specs.Sides.{shape_checks};
ghost use Rattle.c_engine.specs.WordLaws.{check_code, instead};
ghost use Rattle.c_engine.specs.Words.{combine_words, most_of, record_in, resume_words, room_of, start_from_words, start_sides_words, start_words, take_words};
ghost use Rattle.c_engine.specs.Words.{told, words_left};

use c_record::answers;
use calls::Refusal;
use engine_beside::{Beside, Outcome};
use engine_checks::{room as capacity, sides, standing};

mod records; // records.rt: the record as words

// The start. It looks at no table of the stage: any will do.
pub fn start(
    p: usize,
    q: usize,
    coefs: &[i32],
    equations: &mut [i32],
    basis: &mut [u32],
    sizes: &[u32],
    run: &mut [u64],
) -> u64
    ensures { (result, (equations.new, (basis.new, ([], run.new)))) ≡
        told run.old
        (start_words p q coefs.now (most_of q basis.old sizes.now) equations.old basis.old
        run.old) }
{
    if records::fits(run) {
        let r = records::read(run);
        let l = lengths(sizes.len(), 0, 0, 0, 0, 0);
        let o = engine::start(p, q, coefs, equations, basis, sizes, l, r);
        return tell(o, run);
    }
    let most = capacity::basis_room(q, basis.len(), sizes.len());
    misfit(p, q, coefs, equations.len(), most)
}

// The start for right sides and lower bounds: the map, p right sides and a bound of q numbers.
pub fn start_sides(
    p: usize,
    q: usize,
    coefs: &[i32],
    rights: &[i32],
    lower: &[u32],
    equations: &mut [i32],
    basis: &mut [u32],
    sizes: &[u32],
    run: &mut [u64],
) -> u64
    ensures { (result, (equations.new, (basis.new, ([], run.new)))) ≡
        told run.old
        (start_sides_words p q coefs.now rights.now lower.now (most_of (suc q) basis.old sizes.now)
        equations.old basis.old run.old) }
{
    if records::fits(run) {
        let r = records::read(run);
        let beside = lengths(sizes.len(), 0, 0, 0, 0, 0);
        let o = engine::start_sides(
            p, q, coefs, rights, lower, equations, basis, sizes, beside, r,
        );
        return tell(o, run);
    }
    misfit_sides(
        p,
        q,
        coefs.len(),
        rights.len(),
        lower.len(),
        equations.len(),
        basis.len(),
        sizes.len(),
    )
}

// The start from a list: further equations, and the n rows handed over.
pub fn start_from(
    p: usize,
    q: usize,
    coefs: &[i32],
    n: usize,
    rows: &[u32],
    equations: &mut [i32],
    basis: &mut [u32],
    sizes: &[u32],
    run: &mut [u64],
) -> u64
    ensures { (result, (equations.new, (basis.new, ([], run.new)))) ≡
        told run.old
        (start_from_words p q coefs.now n rows.now (most_of q basis.old sizes.now) equations.old
        basis.old run.old) }
{
    if records::fits(run) {
        let r = records::read(run);
        let beside = lengths(sizes.len(), 0, 0, 0, 0, 0);
        let o = engine::start_from(p, q, coefs, n, rows, equations, basis, sizes, beside, r);
        return tell(o, run);
    }
    let most = capacity::basis_room(q, basis.len(), sizes.len());
    misfit_list(p, q, coefs, n, rows, equations.len(), most)
}

// A row operation: u times equation r and t times equation s in the place of equation r.
pub fn combine(
    p: usize,
    q: usize,
    equations: &mut [i32],
    basis: &[u32],
    sizes: &[u32],
    table: &[u32],
    values: &[i64],
    words: &[u64],
    degrees: &[u32],
    marks: &[u64],
    mothers: &[u32],
    run: &mut [u64],
    r: usize,
    u: i32,
    s: usize,
    t: i32,
) -> u64
    ensures { (result, (equations.new, (basis.now, (table.now, run.new)))) ≡
        told run.old
        (combine_words p q (most_of q basis.now sizes.now)
        (room_of q table.now values.now words.now degrees.now marks.now mothers.now)
        r s u t equations.old basis.now table.now run.old) }
{
    let l = lengths(
        sizes.len(),
        values.len(),
        words.len(),
        degrees.len(),
        marks.len(),
        mothers.len(),
    );
    let record = records::read(run);
    let o = engine::combine(p, q, equations, basis, table, l, record, r, s, u, t);
    tell(o, run)
}

// The begin of the stage of equation e, with the fresh unknown f, or with none where f is q.
pub fn take(
    p: usize,
    q: usize,
    equations: &[i32],
    basis: &mut [u32],
    sizes: &[u32],
    table: &[u32],
    values: &[i64],
    words: &[u64],
    degrees: &[u32],
    marks: &[u64],
    mothers: &[u32],
    run: &mut [u64],
    e: usize,
    f: usize,
) -> u64
    ensures { (result, (equations.now, (basis.new, (table.now, run.new)))) ≡
        told run.old
        (take_words p q (most_of q basis.old sizes.now)
        (room_of q table.now values.now words.now degrees.now marks.now mothers.now)
        e f equations.now basis.old table.now run.old) }
{
    let l = lengths(
        sizes.len(),
        values.len(),
        words.len(),
        degrees.len(),
        marks.len(),
        mothers.len(),
    );
    let record = records::read(run);
    let o = engine::take(p, q, equations, basis, table, l, record, e, f);
    tell(o, run)
}

// The continuing call: at most `budget` turns of the stage under way.
pub fn resume(
    p: usize,
    q: usize,
    equations: &[i32],
    basis: &mut [u32],
    sizes: &mut [u32],
    table: &mut [u32],
    values: &mut [i64],
    words: &mut [u64],
    degrees: &mut [u32],
    marks: &mut [u64],
    mothers: &mut [u32],
    run: &mut [u64],
    budget: u64,
) -> u64
    ensures run_after { (result, (equations.now, (basis.new, (table.new, run.new)))) ≡
        told run.old
        (resume_words p q (most_of q basis.old sizes.old)
        (room_of q table.old values.old words.old degrees.old marks.old mothers.old)
        budget equations.now basis.old table.old run.old) }
    ensures resume_left { (o : Left) × ResumeLeft p q budget equations.now basis.old sizes.old table.old
        (sides_of values.old words.old degrees.old marks.old mothers.old)
        (record_in run.old) o basis.new sizes.new table.new
        (sides_of values.new words.new degrees.new marks.new mothers.new) }
{
    let r = records::read(run);
    let o = engine_resume::resume(
        p, q, equations, basis, sizes, table, values, words, degrees, marks, mothers, r, budget,
    );
    tell(o, run)
}

// The lengths of the tables beside the basis and the stage.
fn lengths(
    sizes: usize,
    values: usize,
    words: usize,
    degrees: usize,
    marks: usize,
    mothers: usize,
) -> Beside
    ensures { result ≡ beside_of sizes values words degrees marks mothers }
{
    Beside {
        sizes,
        values,
        words,
        degrees,
        marks,
        mothers,
    }
}

// What a start is told whose words are no record: the first of 1 to 4 that is due, or 6. Nothing is written.
fn misfit(p: usize, q: usize, coefs: &[i32], equations: usize, most: usize) -> u64
    ensures { result ≡ check_code (instead (start_checks_by p q coefs.now most equations)) }
{
    match standing::check_start(p, q, coefs, equations, most) {
        Err(why) => first(why),
        Ok(()) => 6,
    }
}

// The same of a start from a list.
fn misfit_list(
    p: usize,
    q: usize,
    coefs: &[i32],
    n: usize,
    rows: &[u32],
    equations: usize,
    most: usize,
) -> u64
    requires { most ≤ row_limit }
    ensures { result ≡ check_code (instead (start_from_checks_by p q coefs.now n rows.now most equations)) }
{
    match standing::check_start_from(p, q, coefs, n, rows, equations, most) {
        Err(why) => first(why),
        Ok(()) => 6,
    }
}

// The same of a start for right sides and lower bounds: 5 too comes before 6.
fn misfit_sides(
    p: usize,
    q: usize,
    coefs: usize,
    rights: usize,
    lower: usize,
    equations: usize,
    basis: usize,
    sizes: usize,
) -> u64
    ensures { result ≡ check_code (shape_checks p q coefs rights lower equations basis sizes then refuse 6 []) }
{
    match sides::check_shape(p, q, coefs, rights, lower, equations, basis, sizes) {
        Err(why) => calls::number_of(why),
        Ok(()) => 6,
    }
}

// 7 comes after 6.
fn first(why: Refusal) -> u64
    ensures { result ≡ check_code (instead (refuse (number_of why) (values_of why))) }
{
    let n = calls::number_of(why);
    if n == 7 {
        return 6;
    }
    n
}

// Puts the record back, and gives the answer as a number.
fn tell(o: Outcome, run: &mut [u64]) -> u64
    requires { code (answer_of o.answer) < 2 ^ 64 }
    ensures value { result ≡ code (answer_of o.answer) }
    ensures run_after { run.new ≡ words_left run.old o.run }
{
    let answer = o.answer;
    let left = o.run;
    records::write(run, left);
    answers::number(answer)
}
