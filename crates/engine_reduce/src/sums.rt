// The test of a sum of two rows, `upper` and `lower`, whose value is `sum`.
ghost use Rattle.std.specs.Prelude.{◌≡◌, ◌&&◌, ◌+◌, ◌*◌, ◌≤◌, ◌<◌};
ghost use Rattle.std.specs.Int.Signed.{le_z};
ghost use Rattle.definitions.specs.Tables.{at};
ghost use Rattle.engine_spec.specs.Reduction.{is_within};
ghost use Rattle.engine_reduce.specs.Fits.{FirstFit, Low, UnfitIf};
ghost use Rattle.engine_reduce.specs.Pairs.{PairHanded, PairLooked, PairSearched, PairYes, pair_fits};
ghost use Rattle.engine_reduce.specs.Sums.{Looked, integer_at, reducible_by, sum_of};

use crate::memory;
use engine_beside::words as fields;
use engine_rows::rows;

// The two rows whose sum is asked, and what the test reads: the first n rows of the table, their values, and the sum's.
#[derive(Clone, Copy)]
struct Pair<'a> {
    table: &'a [u32],
    values: &'a [i64],
    n: usize,
    q: usize,
    upper: usize,
    lower: usize,
    sum: i64,
}

// Whether one of the first n rows is at or below the sum, whose word is handed over, and has a value between 0 and the sum's.
pub fn reducible(
    table: &[u32],
    values: &[i64],
    words: &[u64],
    n: usize,
    q: usize,
    upper: usize,
    lower: usize,
    sum: i64,
    word: u64,
    held: &mut [u64; 768],
    places: &mut [u32; 66560],
) -> bool
    requires { Looked q n table.now values.now words.now upper lower word }
    ensures { result ≡ reducible_by q n (at table.now q) (integer_at values.now) (sum_of q table.now upper lower) sum }
{
    let pair = Pair {
        table: table,
        values: values,
        n: n,
        q: q,
        upper: upper,
        lower: lower,
        sum: sum,
    };
    let sign = sign_of(sum);
    if dropped(pair, word, sign, held, places) {
        return true;
    }
    if known(pair, word, places) {
        return true;
    }
    if let Some(by) = search(pair, words, word) {
        memory::remember(held, places, sign, by, words[by]);
        return true;
    }
    false
}

// 0, 1 or 2 for a value of 0, above or below. It stays a number: it is the place of the sign in what is remembered.
fn sign_of(sum: i64) -> usize
    ensures { result < 3 }
{
    if sum < 0 {
        return 2;
    }
    if 0 < sum { 1 } else { 0 }
}

// Whether a row that dropped a sum of this sign lately drops this one. It moves half the way ahead.
fn dropped(
    pair: Pair,
    word: u64,
    sign: usize,
    held: &mut [u64; 768],
    places: &mut [u32; 66560],
) -> bool
    requires { PairHanded pair × (sign < 3) }
    ensures { PairYes pair.entry result }
{
    let from = sign * 256;
    let past = from + memory::count(places, sign);
    let mut i = from;
    while let Some(k) = memory::next_held(held, i, past, word) {
        i = k + 1;
        if reduces(pair, memory::place(places, k)) {
            memory::advance(held, places, from, k);
            return true;
        }
    }
    false
}

// Whether the row that was last appended or found with a word of the same remainder drops the sum.
fn known(pair: Pair, word: u64, places: &[u32; 66560]) -> bool
    requires { PairHanded pair }
    ensures { PairYes pair.entry result }
{
    reduces(pair, memory::place(places, memory::slot(word)))
}

// Whether there is a row i, and it reduces the sum.
fn reduces(pair: Pair, i: usize) -> bool
    requires { PairHanded pair }
    ensures { PairYes pair.entry result }
{
    let n = pair.n;
    if n <= i {
        return false;
    }
    reduces_at(pair, i)
}

// Whether row i is at or below the sum and has a value between 0 and the sum's.
fn reduces_at(pair: Pair, i: usize) -> bool
    requires { PairHanded pair × (i < pair.n) }
    ensures { result ≡ pair_fits pair.entry i }
{
    if !within(pair.values[i], pair.sum) {
        return false;
    }
    let q = pair.q;
    let row = i * q;
    let upper = pair.upper * q;
    let lower = pair.lower * q;
    rows::below_sum(pair.table, row, upper, lower, q)
}

// Whether y lies between 0 and x.
fn within(y: i64, x: i64) -> bool
    ensures { result ≡ is_within y x }
{
    if x < 0 {
        return between(y, x, 0);
    }
    between(y, 0, x)
}

// Whether x lies from `lo` to `hi`.
fn between(x: i64, lo: i64, hi: i64) -> bool
    ensures { result ≡ (le_z lo x && le_z x hi) }
{
    if x < lo {
        return false;
    }
    x <= hi
}

// The first of the n rows that reduces the sum.
fn search(pair: Pair, words: &[u64], word: u64) -> Option<usize>
    requires { PairLooked pair words.now word }
    ensures { PairSearched pair.entry result }
{
    let mut i = 0;
    while let Some(k) = next_fit(words, i, pair.n, word) {
        i = k + 1;
        if reduces_at(pair, k) {
            return Some(k);
        }
    }
    None
}

// The first of the words from place `from` to n - 1 that lets its row lie at or below the sum. Eight are looked at together.
fn next_fit(words: &[u64], from: usize, n: usize, word: u64) -> Option<usize>
    requires { Low n words.now × (from ≤ n) }
    ensures { FirstFit words.now word from n result }
{
    let eights = (n - from) / 8;
    for e in 0..eights {
        let i = from + 8 * e;
        if some_fit(words, i, n, word) {
            return first_fit(words, i, n, word);
        }
    }
    first_fit(words, from + 8 * eights, n, word)
}

// Whether one of the eight words from place `from` on does: no branch for each.
fn some_fit(words: &[u64], from: usize, n: usize, word: u64) -> bool
    requires { Low n words.now × (from + 8 ≤ n) }
    ensures { UnfitIf result words.now word from (from + 8) }
{
    let mut any = false;
    for j in 0..8 {
        if fields::fits(words[from + j], word) {
            any = true;
        }
    }
    any
}

// The same, one by one.
fn first_fit(words: &[u64], from: usize, n: usize, word: u64) -> Option<usize>
    requires { Low n words.now × (from ≤ n) }
    ensures { FirstFit words.now word from n result }
{
    for i in from..n {
        if fields::fits(words[i], word) {
            return Some(i);
        }
    }
    None
}
