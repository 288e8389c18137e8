// Rows appended, with what stands beside them.
ghost use Rattle.std.specs.Prelude.{◌≡◌, ◌+◌, ◌*◌, ◌≤◌, ◌<◌, nat_abs, ◌+ℤ◌};
ghost use Rattle.std.specs.Int.{w64};
ghost use Rattle.std.proofs.Common.{SFits};
ghost use Rattle.engine_spec.specs.Beside.{equation_at, row_at, value_limit};
ghost use Rattle.engine_stage.specs.Appended.{PairAppended, PairFits, RowAppended, RowFits};
ghost use Rattle.engine_stage.specs.Marked.{mark_of};

use crate::tests;
use engine_beside::values as numbers;
use engine_reduce::memory;
use engine_rows::{marks as magnitudes, rows};

// No mark, and no row that gives one.
const NO_MARK: u64 = 18446744073709551615;

const NO_MOTHER: u32 = 4294967295;

// The sum of rows h and k, whose word is handed over, becomes row n.
pub fn append_pair(
    table: &mut [u32],
    values: &mut [i64],
    words: &mut [u64],
    degrees: &mut [u32],
    marks: &mut [u64],
    mothers: &mut [u32],
    n: usize,
    q: usize,
    h: usize,
    k: usize,
    word: u64,
)
    requires { PairFits q n table.old values.old words.old degrees.old marks.old mothers.old h k }
    ensures { PairAppended q n h k word table.old values.old words.old degrees.old marks.old
        mothers.old table.new values.new words.new degrees.new marks.new mothers.new }
{
    rows::append_sum(table, h * q, k * q, n * q, q);
    let x = values[h];
    let y = values[k];
    values[n] = tests::both(x, y);
    words[n] = word;
    degrees[n] = degrees[h] + degrees[k];
    marks[n] = mark_of(x, y);
    mothers[n] = mother_of(x, y, h, k);
}

// Row i of the basis, whose word and degree are handed over, becomes row n.
pub fn append_row(
    coefs: &[i32],
    from: usize,
    basis: &[u32],
    table: &mut [u32],
    values: &mut [i64],
    words: &mut [u64],
    degrees: &mut [u32],
    marks: &mut [u64],
    mothers: &mut [u32],
    n: usize,
    q: usize,
    i: usize,
    word: u64,
    degree: u32,
)
    requires { RowFits q n coefs.now from basis.now i table.old values.old words.old degrees.old marks.old mothers.old }
    ensures { RowAppended q n (equation_at coefs.now from) (row_at basis.now (i * q)) word degree
        table.old values.old words.old degrees.old marks.old mothers.old
        table.new values.new words.new degrees.new marks.new mothers.new }
{
    rows::append_row(basis, i * q, table, n * q, q);
    values[n] = numbers::value_at(coefs, from, basis, i * q, q);
    words[n] = word;
    degrees[n] = degree;
    marks[n] = NO_MARK;
    mothers[n] = NO_MOTHER;
}

// The mark of the sum of a row of value x above 0 and one of value y below: the size of the one whose sign the sum has.
fn mark_of(x: i64, y: i64) -> u64
    requires { (nat_abs x ≤ value_limit) × (nat_abs y ≤ value_limit) × SFits w64 (x +ℤ y) }
    ensures { result ≡ mark_of x y }
{
    let sum = x + y;
    if sum < 0 {
        return magnitudes::size(y);
    }
    if 0 < sum {
        return magnitudes::size(x);
    }
    NO_MARK
}

// The row that gives the mark: the one of the other sign than the sum.
fn mother_of(x: i64, y: i64, h: usize, k: usize) -> u32
    requires { (h < 4294967296) × (k < 4294967296) × SFits w64 (x +ℤ y) }
{
    let sum = x + y;
    if sum < 0 {
        return h as u32;
    }
    if 0 < sum { k as u32 } else { NO_MOTHER }
}
