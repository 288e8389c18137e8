// One turn of a stage: a row of the basis, a pair of rows, the next degree, or the end. The rows' values, words, degrees, marks and mothers stand beside them.
ghost use Rattle.std.specs.Prelude.{◌≡◌, ◌+◌, ◌*◌, ◌≤◌, length, eqb, false};
ghost use Rattle.definitions.specs.Tables.{at};
ghost use Rattle.engine_spec.specs.Beside.{equation_at};
ghost use Rattle.engine_spec.specs.Search.{first_in};
ghost use Rattle.engine_spec.specs.Stage.{pair_turn, row_turn};
ghost use Rattle.engine_search.specs.Places.{degree_of};
ghost use Rattle.engine_stage.specs.Standing.{Left, Ready, lent_of, sides_of, stage_of, turn_of};
ghost use Rattle.engine_stage.specs.Turning.{PairDue, RowDue, RowFound};

use crate::{append, tests};
use engine_beside::words as fields;
use engine_reduce::memory;
use engine_rows::rows;
use engine_search::Place;

// What a stage has: q unknowns, m rows of the basis, room for so many rows, its equation from place `from` of the coefficients on, and the cap on the first
// unknown, 0 where there is none.
#[derive(Clone, Copy)]
pub struct Frame {
    pub q: usize,
    pub m: usize,
    pub room: usize,
    pub from: usize,
    pub cap: u64,
}

// Where a stage stands: its rows, the row of the basis that is next, the degree under way, the pair that is next, the steps; from row `first` on no degree is
// below what the degree of `upper` leaves; and whether a row of the basis of this degree may be left.
// `first` has a meaning whether `more` is set or not, so the two stay two fields.
#[derive(Clone, Copy)]
pub struct Next {
    pub rows: usize,
    pub taken: usize,
    pub degree: u64,
    pub upper: usize,
    pub lower: usize,
    pub steps: u64,
    pub first: usize,
    pub more: bool,
}

// Why a stage stops: refused with 14, 12 or 31, or at its end.
#[derive(Clone, Copy)]
pub enum Stop {
    Late,
    Large,
    Full,
    Ends,
}

// One turn.
pub fn turn(
    f: Frame,
    coefs: &[i32],
    basis: &[u32],
    sizes: &[u32],
    table: &mut [u32],
    values: &mut [i64],
    words: &mut [u64],
    degrees: &mut [u32],
    marks: &mut [u64],
    mothers: &mut [u32],
    held: &mut [u64; 768],
    places: &mut [u32; 66560],
    s: Next,
) -> Result<Next, Stop>
    requires { Ready f (lent_of coefs.now basis.now sizes.now) table.old
        (sides_of values.old words.old degrees.old marks.old mothers.old) s }
    ensures { Left f (lent_of coefs.now basis.now sizes.now)
        (turn_of f (lent_of coefs.now basis.now sizes.now) table.old s) s.rows table.old
        (sides_of values.old words.old degrees.old marks.old mothers.old) result table.new
        (sides_of values.new words.new degrees.new marks.new mothers.new) }
{
    let n = s.rows;
    let d = s.degree;
    if s.steps == calls::STEP_LIMIT {
        return Err(Stop::Late);
    }
    if let Some(i) = due(sizes, f.m, s.taken, d, s.more) {
        return row_turn(
            f, coefs, basis, sizes, table, values, words, degrees, marks, mothers, places, s, i,
        );
    }
    let from = Place {
        upper: s.upper,
        lower: s.lower,
        first: s.first,
    };
    if let Some(at) = engine_search::next_pair(values, degrees, n, d, from) {
        return pair_turn(
            f, coefs, basis, sizes, table, values, words, degrees, marks, mothers, held, places, s,
            at,
        );
    }
    match engine_search::next_degree(values, degrees, n, sizes, f.m, d) {
        Some(next) => Ok(Next {
            rows: n,
            taken: 0,
            degree: next,
            upper: 0,
            lower: 0,
            steps: s.steps + 1,
            first: n,
            more: true,
        }),
        None => Err(Stop::Ends),
    }
}

// The row of the basis that is due. `more` says that there may be one.
fn due(sizes: &[u32], m: usize, from: usize, d: u64, more: bool) -> Option<usize>
    requires { (m ≤ length sizes.now) × (more ≡ false → m ≤ first_in m from (λ i. eqb (degree_of sizes.now i) d)) }
    ensures { RowFound m (first_in m from (λ i. eqb (degree_of sizes.now i) d)) result }
{
    if !more {
        return None;
    }
    engine_search::due_row(sizes, m, from, d)
}

// Row i of the basis is appended.
fn row_turn(
    f: Frame,
    coefs: &[i32],
    basis: &[u32],
    sizes: &[u32],
    table: &mut [u32],
    values: &mut [i64],
    words: &mut [u64],
    degrees: &mut [u32],
    marks: &mut [u64],
    mothers: &mut [u32],
    places: &mut [u32; 66560],
    s: Next,
    i: usize,
) -> Result<Next, Stop>
    requires { Ready f (lent_of coefs.now basis.now sizes.now) table.old
        (sides_of values.old words.old degrees.old marks.old mothers.old) s × RowDue f (lent_of coefs.now basis.now sizes.now) s i }
    ensures { Left f (lent_of coefs.now basis.now sizes.now)
        (row_turn f.q (at basis.now f.q) f.room (stage_of f table.old s) i) s.rows table.old
        (sides_of values.old words.old degrees.old marks.old mothers.old) result table.new
        (sides_of values.new words.new degrees.new marks.new mothers.new) }
{
    let q = f.q;
    let n = s.rows;
    if f.room <= n {
        return Err(Stop::Full);
    }
    let word = fields::word_at(basis, i * q, q);
    append::append_row(
        coefs, f.from, basis, table, values, words, degrees, marks, mothers, n, q, i, word,
        sizes[i],
    );
    memory::appended(places, n, word);
    Ok(Next {
        rows: n + 1,
        taken: i + 1,
        steps: s.steps + 1,
        first: n + 1,
        more: true,
        ..s
    })
}

// The pair found: its sum is appended unless it passes the cap or some row reduces it.
fn pair_turn(
    f: Frame,
    coefs: &[i32],
    basis: &[u32],
    sizes: &[u32],
    table: &mut [u32],
    values: &mut [i64],
    words: &mut [u64],
    degrees: &mut [u32],
    marks: &mut [u64],
    mothers: &mut [u32],
    held: &mut [u64; 768],
    places: &mut [u32; 66560],
    s: Next,
    at: Place,
) -> Result<Next, Stop>
    requires { Ready f (lent_of coefs.now basis.now sizes.now) table.old
        (sides_of values.old words.old degrees.old marks.old mothers.old) s
        × PairDue f (lent_of coefs.now basis.now sizes.now) table.old degrees.old s at.upper at.lower at.first }
    ensures { Left f (lent_of coefs.now basis.now sizes.now)
        (pair_turn f.q (equation_at coefs.now f.from) f.room (stage_of f table.old s) at.upper at.lower) s.rows
        table.old
        (sides_of values.old words.old degrees.old marks.old mothers.old) result table.new
        (sides_of values.new words.new degrees.new marks.new mothers.new) }
{
    let q = f.q;
    let n = s.rows;
    let h = at.upper;
    let k = at.lower;
    let word = fields::joined(words[h], words[k]);
    let passed = Next {
        upper: h,
        lower: k + 1,
        steps: s.steps + 1,
        first: at.first,
        more: false,
        ..s
    };
    if tests::needless(
        f.cap, coefs, f.from, table, values, words, marks, n, q, h, k, word, held, places,
    ) {
        return Ok(passed);
    }
    if !rows::small_sum(table, h * q, k * q, q) {
        return Err(Stop::Large);
    }
    if f.room <= n {
        return Err(Stop::Full);
    }
    append::append_pair(
        table, values, words, degrees, marks, mothers, n, q, h, k, word,
    );
    memory::appended(places, n, word);
    Ok(Next {
        rows: n + 1,
        ..passed
    })
}
