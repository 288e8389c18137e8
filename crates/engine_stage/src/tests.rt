// The test of a pair: by the cap, by the marks of its rows, and else by all rows.
ghost use Rattle.std.specs.Prelude.{◌≡◌, ◌+◌, ◌≤◌, ◌<◌, nat_abs, ◌+ℤ◌, get_or, length};
ghost use Rattle.std.specs.Int.{w64};
ghost use Rattle.std.proofs.Common.{SFits};
ghost use Rattle.engine_spec.specs.Beside.{equation_at, value_limit, word_of};
ghost use Rattle.engine_spec.specs.Caps.{is_over};
ghost use Rattle.engine_reduce.specs.Sums.{sum_of};
ghost use Rattle.engine_stage.specs.Marked.{Paired, is_marked, needless_of, test_of};

use engine_reduce::sums;
use engine_rows::marks as magnitudes;

// Whether the sum of rows h and k, whose word is handed over, need not become a row: it passes the cap, or some row reduces it.
pub fn needless(
    cap: u64,
    coefs: &[i32],
    from: usize,
    table: &[u32],
    values: &[i64],
    words: &[u64],
    marks: &[u64],
    n: usize,
    q: usize,
    h: usize,
    k: usize,
    word: u64,
    held: &mut [u64; 768],
    places: &mut [u32; 66560],
) -> bool
    requires { Paired q (equation_at coefs.now from) n table.now values.now words.now marks.now h k
        × (word ≡ word_of q (sum_of q table.now h k)) × (0 < q) }
    ensures { result ≡ needless_of cap q (equation_at coefs.now from) n table.now h k }
{
    if is_over(cap, table, h * q, k * q) {
        return true;
    }
    reduced(
        coefs, from, table, values, words, marks, n, q, h, k, word, held, places,
    )
}

// Whether the sum of two numbers of a table passes a cap.
fn is_over(cap: u64, table: &[u32], x: usize, y: usize) -> bool
    requires { (x < length table.now) × (y < length table.now) }
    ensures { result ≡ is_over cap (λ _. get_or table.now x 0 + get_or table.now y 0) }
{
    if cap == 0 {
        return false;
    }
    cap < sum(table[x], table[y])
}

fn sum(x: u32, y: u32) -> u64
    ensures { result ≡ x + y }
{
    x as u64 + y as u64
}

// Whether some row reduces that sum: by the marks of the two, and else by the rows.
fn reduced(
    coefs: &[i32],
    from: usize,
    table: &[u32],
    values: &[i64],
    words: &[u64],
    marks: &[u64],
    n: usize,
    q: usize,
    h: usize,
    k: usize,
    word: u64,
    held: &mut [u64; 768],
    places: &mut [u32; 66560],
) -> bool
    requires { Paired q (equation_at coefs.now from) n table.now values.now words.now marks.now h k × (word ≡ word_of q (sum_of q table.now h k)) }
    ensures { result ≡ test_of q (equation_at coefs.now from) n table.now h k }
{
    if is_marked(values[h], values[k], marks[h], marks[k]) {
        return true;
    }
    sums::reducible(
        table,
        values,
        words,
        n,
        q,
        h,
        k,
        both(values[h], values[k]),
        word,
        held,
        places,
    )
}

// Whether the size of one row's value is at least the other row's mark.
fn is_marked(x: i64, y: i64, mark: u64, other: u64) -> bool
    requires { (nat_abs x ≤ value_limit) × (nat_abs y ≤ value_limit) }
    ensures { result ≡ is_marked x y mark other }
{
    if mark <= magnitudes::size(y) {
        return true;
    }
    other <= magnitudes::size(x)
}

pub fn both(x: i64, y: i64) -> i64
    requires { SFits w64 (x +ℤ y) }
    ensures { result ≡ x +ℤ y }
{
    x + y
}
