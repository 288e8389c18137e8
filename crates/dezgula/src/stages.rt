// The engine's calls (crate c_engine).
ghost use Rattle.std.specs.Prelude.{◌≡◌, [], suc};
ghost use Rattle.c_engine.specs.Words.{combine_words, most_of, record_in, resume_words, room_of, start_from_words};
ghost use Rattle.c_engine.specs.Words.{start_sides_words, start_words, take_words, told};
ghost use Rattle.engine_resume.specs.Continuing.{ResumeLeft};
ghost use Rattle.engine_beside.specs.declared.Outcome.{Outcome as Left};
ghost use Rattle.engine_stage.specs.Standing.{sides_of};

// The start.
#[unsafe(no_mangle)]
pub extern "C" fn dezgula_raw_engine_start(
    p: usize,
    q: usize,
    coefs: &[i32],
    equations: &mut [i32],
    basis: &mut [u32],
    sizes: &[u32],
    run: &mut [u64],
) -> u64
    ensures { (result, (equations.new, (basis.new, ([], run.new)))) ≡
        told run.old
        (start_words p q coefs.now (most_of q basis.old sizes.now) equations.old basis.old
        run.old) }
{
    c_engine::start(p, q, coefs, equations, basis, sizes, run)
}

// The start for right sides and lower bounds: the map, p right sides and a bound of q numbers.
#[unsafe(no_mangle)]
pub extern "C" fn dezgula_raw_engine_start_sides(
    p: usize,
    q: usize,
    coefs: &[i32],
    rights: &[i32],
    lower: &[u32],
    equations: &mut [i32],
    basis: &mut [u32],
    sizes: &[u32],
    run: &mut [u64],
) -> u64
    ensures { (result, (equations.new, (basis.new, ([], run.new)))) ≡
        told run.old
        (start_sides_words p q coefs.now rights.now lower.now (most_of (suc q) basis.old sizes.now)
        equations.old basis.old run.old) }
{
    c_engine::start_sides(p, q, coefs, rights, lower, equations, basis, sizes, run)
}

// The start from a list: further equations, and the n rows handed over.
#[unsafe(no_mangle)]
pub extern "C" fn dezgula_raw_engine_start_from(
    p: usize,
    q: usize,
    coefs: &[i32],
    n: usize,
    rows: &[u32],
    equations: &mut [i32],
    basis: &mut [u32],
    sizes: &[u32],
    run: &mut [u64],
) -> u64
    ensures { (result, (equations.new, (basis.new, ([], run.new)))) ≡
        told run.old
        (start_from_words p q coefs.now n rows.now (most_of q basis.old sizes.now) equations.old
        basis.old run.old) }
{
    c_engine::start_from(p, q, coefs, n, rows, equations, basis, sizes, run)
}

// A row operation: u times equation r and t times equation s in the place of equation r.
#[unsafe(no_mangle)]
pub extern "C" fn dezgula_raw_engine_combine(
    p: usize,
    q: usize,
    equations: &mut [i32],
    basis: &[u32],
    sizes: &[u32],
    table: &[u32],
    values: &[i64],
    words: &[u64],
    degrees: &[u32],
    marks: &[u64],
    mothers: &[u32],
    run: &mut [u64],
    r: usize,
    u: i32,
    s: usize,
    t: i32,
) -> u64
    ensures { (result, (equations.new, (basis.now, (table.now, run.new)))) ≡
        told run.old
        (combine_words p q (most_of q basis.now sizes.now)
        (room_of q table.now values.now words.now degrees.now marks.now mothers.now)
        r s u t equations.old basis.now table.now run.old) }
{
    c_engine::combine(
        p, q, equations, basis, sizes, table, values, words, degrees, marks, mothers, run, r, u, s,
        t,
    )
}

// The begin of the stage of equation e, with the fresh unknown f, or with none where f is q.
#[unsafe(no_mangle)]
pub extern "C" fn dezgula_raw_engine_take(
    p: usize,
    q: usize,
    equations: &[i32],
    basis: &mut [u32],
    sizes: &[u32],
    table: &[u32],
    values: &[i64],
    words: &[u64],
    degrees: &[u32],
    marks: &[u64],
    mothers: &[u32],
    run: &mut [u64],
    e: usize,
    f: usize,
) -> u64
    ensures { (result, (equations.now, (basis.new, (table.now, run.new)))) ≡
        told run.old
        (take_words p q (most_of q basis.old sizes.now)
        (room_of q table.now values.now words.now degrees.now marks.now mothers.now)
        e f equations.now basis.old table.now run.old) }
{
    c_engine::take(
        p, q, equations, basis, sizes, table, values, words, degrees, marks, mothers, run, e, f,
    )
}

// The continuing call: at most `budget` turns of the stage under way.
#[unsafe(no_mangle)]
pub extern "C" fn dezgula_raw_engine_resume(
    p: usize,
    q: usize,
    equations: &[i32],
    basis: &mut [u32],
    sizes: &mut [u32],
    table: &mut [u32],
    values: &mut [i64],
    words: &mut [u64],
    degrees: &mut [u32],
    marks: &mut [u64],
    mothers: &mut [u32],
    run: &mut [u64],
    budget: u64,
) -> u64
    ensures run_after { (result, (equations.now, (basis.new, (table.new, run.new)))) ≡
        told run.old
        (resume_words p q (most_of q basis.old sizes.old)
        (room_of q table.old values.old words.old degrees.old marks.old mothers.old)
        budget equations.now basis.old table.old run.old) }
    ensures resume_left { (o : Left) × ResumeLeft p q budget equations.now basis.old sizes.old table.old
        (sides_of values.old words.old degrees.old marks.old mothers.old)
        (record_in run.old) o basis.new sizes.new table.new
        (sides_of values.new words.new degrees.new marks.new mothers.new) }
{
    c_engine::resume(
        p, q, equations, basis, sizes, table, values, words, degrees, marks, mothers, run, budget,
    )
}
