// The words of rows: 16 fields of four bits, of which the highest, the guard, is clear. Field j holds components j and 16 + j added up, as far as 7.
ghost use Rattle.std.specs.Prelude.{◌≡◌, ℕ, ◌≤◌, ◌<◌, min, length};
ghost use Rattle.engine_spec.specs.Beside.{SmallRow, SmallTable, Worded, folded, row_at, word_of};
ghost use Rattle.engine_spec.specs.Words.{fits as fits_word, joined as joined_word, word};
ghost use Rattle.engine_beside.specs.Writing.{Kept};

use crate::places;

const GUARDS: u64 = 0x8888888888888888;

const OTHERS: u64 = 0x7777777777777777;

// The word of the row that stands in the table from place `base`.
pub fn word_at(table: &[u32], base: usize, q: usize) -> u64
    requires { (q ≤ 32) × SmallRow q table.now base }
    ensures { result ≡ word_of q (row_at table.now base) }
{
    if q <= 16 {
        return word_of_fields(q, |j| table[base + j]);
    }
    word_of_fields(16, |j| folded_at(table, base, q, j))
}

// The word of so many fields, made from the last one on. A field moves those made before it up by four bits: the same shift in each turn.
fn word_of_fields<F: Fn(usize) -> u32>(fields: usize, field: F) -> u64
    requires { (fields ≤ 16) × ((j : ℕ) → j < fields → F.pre field j) }
    ensures { (x : ℕ → ℕ) → ((j y : ℕ) → j < fields → F.post field j y → y ≡ x j) → result ≡ word fields x }
{
    let mut word: u64 = 0;
    for j in (0..fields).rev() {
        word = 16 * word + cut(field(j));
    }
    word
}

// Writes those of the first n rows.
pub fn write_words(table: &[u32], n: usize, q: usize, words: &mut [u64])
    requires { SmallTable q n table.now × (n ≤ length words.old) }
    ensures { Worded q n table.now words.new × Kept 0 n words.old words.new }
{
    places::write_first(words, n, |i| word_at(table, i * q, q));
}

// The word of the sum of two tuples, by their words. A field that has reached its guard becomes 7.
pub fn joined(a: u64, b: u64) -> u64
    requires { (a ≤ 8608480567731124087) × (b ≤ 8608480567731124087) }
    ensures { result ≡ joined_word 16 a b }
{
    let sum = a + b;
    let over = sum & GUARDS;
    (sum & OTHERS) | (over - over / 8)
}

// Whether the tuple of word a may lie at or below that of word b: no field of a is above that of b.
pub fn fits(a: u64, b: u64) -> bool
    requires { a ≤ 8608480567731124087 }
    ensures { result ≡ fits_word 16 a b }
{
    ((b | GUARDS) - a) & GUARDS == GUARDS
}

// Components j and 16 + j of the row from place `base`, added up.
fn folded_at(table: &[u32], base: usize, q: usize, j: usize) -> u32
    requires { (j < q) × SmallRow q table.now base }
    ensures { result ≡ folded q (row_at table.now base) j }
{
    let x = table[base + j];
    if 16 + j < q {
        return x + table[base + (16 + j)];
    }
    x
}

// x as far as 7.
fn cut(x: u32) -> u64
    ensures { result ≡ min x 7 }
{
    u64::from(x.min(7))
}
