// The kinds of call: each is made as its line has it, and held against what the line says must come of it. What is kept beside the rows is lent as zeros, of
// the lengths that the line says; the line's own numbers for it are the mothers.
use try_support::line::{Line, ROOM};
use try_support::tables::{first, first_mut};

// An answer that no line has: the line's tables have no room here, or an entry is another.
const OTHER: u64 = 255;

// Whether the call comes to its answer, its record and every entry of its tables.
pub fn agrees(kind: u8, l: &Line) -> bool {
    let mut record = l.record;
    answer(kind, l, record.lend()) == l.answered[0] && record.agrees()
}

// The answer, where the tables are left as the line says.
fn answer(kind: u8, l: &Line, record: &mut [u64]) -> u64 {
    let start = matches!(kind, b's' | b'f' | b'w');
    if !fits(l, start) {
        return OTHER;
    }
    let mut equations = l.equations;
    let mut basis = l.list;
    let e = equations.lend();
    let b = basis.lend();
    let (answer, kept) = if start {
        // it leaves the line's own table as it is
        (started(kind, l, e, b, record), l.stack.agrees())
    } else {
        made(kind, l, e, b, record)
    };
    if kept && equations.agrees() && basis.agrees() {
        answer
    } else {
        OTHER
    }
}

// Whether there is room for the tables, and for those of numbers lent as zeros: the sizes, and of a run under way the values, words, degrees and marks too.
fn fits(l: &Line, start: bool) -> bool {
    let lengths = first(&l.shares.before, if start { 1 } else { 5 });
    lengths.iter().all(|n| *n <= ROOM as u64)
        && l.equations.fits()
        && l.list.fits()
        && l.coefs.fits()
        && l.rights.fits()
        && l.stack.fits()
        && l.tuple.fits()
        && l.record.fits()
}

// A start, plain, from a list or for right sides: of the second the rows, of the third the bound are the line's table.
fn started(
    kind: u8,
    l: &Line,
    equations: &mut [i32],
    basis: &mut [u32],
    record: &mut [u64],
) -> u64 {
    let zeros = [0u32; ROOM];
    let sizes = first(&zeros, l.shares.before[0] as usize);
    let p = l.operands[0] as usize;
    let q = l.operands[1] as usize;
    let n = l.operands[2] as usize;
    let coefs = l.coefs.entries();
    let rows = l.stack.entries();
    let rights = l.rights.entries();
    match kind {
        b's' => c_engine::start(p, q, coefs, equations, basis, sizes, record),
        b'w' => c_engine::start_sides(p, q, coefs, rights, rows, equations, basis, sizes, record),
        _ => c_engine::start_from(p, q, coefs, n, rows, equations, basis, sizes, record),
    }
}

// A call of a run under way, and whether it leaves the table of sums as the line says.
fn made(
    kind: u8,
    l: &Line,
    equations: &mut [i32],
    basis: &mut [u32],
    record: &mut [u64],
) -> (u64, bool) {
    let n = l.shares.before;
    let mut sizes = [0u32; ROOM];
    let mut values = [0i64; ROOM];
    let mut words = [0u64; ROOM];
    let mut degrees = [0u32; ROOM];
    let mut marks = [0u64; ROOM];
    let mut mothers = l.tuple;
    let mut table = l.stack;
    let answer = beside(
        kind,
        l,
        equations,
        basis,
        first_mut(&mut sizes, n[0] as usize),
        table.lend(),
        first_mut(&mut values, n[1] as usize),
        first_mut(&mut words, n[2] as usize),
        first_mut(&mut degrees, n[3] as usize),
        first_mut(&mut marks, n[4] as usize),
        mothers.lend(),
        record,
    );
    (answer, table.agrees())
}

// p and q; then of a row operation the two equations, whose factors are a table of their own, of a stage's begin the equation and the fresh unknown, and of
// a continuing call the budget.
fn beside(
    kind: u8,
    l: &Line,
    equations: &mut [i32],
    basis: &mut [u32],
    sizes: &mut [u32],
    table: &mut [u32],
    values: &mut [i64],
    words: &mut [u64],
    degrees: &mut [u32],
    marks: &mut [u64],
    mothers: &mut [u32],
    record: &mut [u64],
) -> u64 {
    let p = l.operands[0] as usize;
    let q = l.operands[1] as usize;
    let r = l.operands[2] as usize;
    let s = l.operands[3] as usize;
    let y = l.rights.before;
    match kind {
        b'c' => c_engine::combine(
            p, q, equations, basis, sizes, table, values, words, degrees, marks, mothers, record,
            r, y[0], s, y[1],
        ),
        b't' => c_engine::take(
            p, q, equations, basis, sizes, table, values, words, degrees, marks, mothers, record,
            r, s,
        ),
        _ => c_engine::resume(
            p,
            q,
            equations,
            basis,
            sizes,
            table,
            values,
            words,
            degrees,
            marks,
            mothers,
            record,
            l.operands[2],
        ),
    }
}
