// What the reader looks at: refusals 19, 20, 21, 22 and 29.
ghost use Rattle.std.specs.Prelude.{◌≡◌, ◌+◌, ◌*◌, ◌<◌, ◌≤◌, length};
ghost use Rattle.list_spec.specs.Words.{word_at};
ghost use Rattle.list_spec.specs.Reading.{coef_words, row_words, block_checks, header_in_range, stream_word_in_range, block_in_range};
ghost use Rattle.list_spec.specs.Reading.{stream_checks, file_checks, read_checks};
ghost use Rattle.list_file.specs.Paper.{check_of};
ghost use Rattle.list_file.specs.ReadLaws.{HeaderRead, StreamRead, later_checks, table_checks};

use crate::words::{FileRefusal, all_within, signed, word_at, wrapping_sum};

// All that the reader looks at; `coefs` and `list` are the lengths of the tables.
pub fn check(file: &[u8], coefs: usize, list: usize) -> Result<(), FileRefusal>
    ensures { check_of result ≡ read_checks file.now coefs list }
{
    check_blocks(file)?;
    check_tables(file, coefs, list)
}

// Refusal 29.
fn check_tables(file: &[u8], coefs: usize, list: usize) -> Result<(), FileRefusal>
    requires { HeaderRead file.now }
    ensures { check_of result ≡ table_checks file.now coefs list }
{
    if coefs < coef_words(file) {
        return Err(FileRefusal::TableLength);
    }
    if list < row_words(file) {
        return Err(FileRefusal::TableLength);
    }
    Ok(())
}

// The length and the blocks, one after the other.
fn check_blocks(file: &[u8]) -> Result<(), FileRefusal>
    ensures { check_of result ≡ file_checks file.now }
{
    if file.len() < 512 {
        return Err(FileRefusal::Length);
    }
    check_block(file, 0, header_in_range(file))?;
    check_later(file)
}

// What comes after block 0.
fn check_later(file: &[u8]) -> Result<(), FileRefusal>
    requires { HeaderRead file.now }
    ensures { check_of result ≡ later_checks file.now }
{
    let coefs = coef_words(file);
    let rows = row_words(file);
    let later = (coefs + rows + 125) / 126;
    if file.len() != 512 * (later + 1) {
        return Err(FileRefusal::Length);
    }
    check_stream(file, coefs, rows, later)
}

// The first `later` blocks after block 0.
fn check_stream(file: &[u8], coefs: usize, rows: usize, later: usize) -> Result<(), FileRefusal>
    requires { StreamRead coefs rows later (length file.now) }
    ensures { check_of result ≡ stream_checks file.now coefs rows later }
{
    for b in 0..later {
        check_block(file, b + 1, block_in_range(file, coefs, rows, b))?;
    }
    Ok(())
}

// Refusals 20, 21 and 22 for block `b`, of which it is known whether its words are in range.
fn check_block(file: &[u8], b: usize, ranged: bool) -> Result<(), FileRefusal>
    requires { 512 * (b + 1) ≤ length file.now }
    ensures { check_of result ≡ block_checks file.now b ranged }
{
    if wrapping_sum(file, 128 * b, 128) != 0 {
        return Err(FileRefusal::Sum);
    }
    if word_at(file, 128 * b) as usize != b {
        return Err(FileRefusal::Number);
    }
    if !ranged {
        return Err(FileRefusal::Range);
    }
    Ok(())
}

// Whether p, q, the row count and the ending are in range, with zeros after them.
fn header_in_range(file: &[u8]) -> bool
    requires { 512 ≤ length file.now }
    ensures { result ≡ header_in_range file.now }
{
    let p = word_at(file, 1);
    let q = word_at(file, 2);
    if p < 1 {
        return false;
    }
    if 8 < p {
        return false;
    }
    if q < 1 {
        return false;
    }
    if 16 < q {
        return false;
    }
    if 4096 < word_at(file, 3) {
        return false;
    }
    if 1 < word_at(file, 4) {
        return false;
    }
    all_within(file, 5, 122, 0)
}

// Whether the words that block `b + 1` carries are in range: at once where they are components, as in most blocks, and else word by word.
fn block_in_range(file: &[u8], coefs: usize, rows: usize, b: usize) -> bool
    requires { StreamRead coefs rows (b + 1) (length file.now) }
    ensures { result ≡ block_in_range file.now coefs rows b }
{
    if 126 * b < coefs {
        return words_in_range(file, coefs, rows, b);
    }
    if coefs + rows < 126 * b + 126 {
        return words_in_range(file, coefs, rows, b);
    }
    all_within(file, 128 * (b + 1) + 1, 126, calls::COMPONENT_LIMIT)
}

// The same word by word.
fn words_in_range(file: &[u8], coefs: usize, rows: usize, b: usize) -> bool
    requires { StreamRead coefs rows (b + 1) (length file.now) }
    ensures { result ≡ block_in_range file.now coefs rows b }
{
    for j in 0..126 {
        let w = word_at(file, 128 * (b + 1) + (j + 1));
        if !word_in_range(coefs, rows, 126 * b + j, w) {
            return false;
        }
    }
    true
}

// Whether `w` may be word `i` of the stream.
fn word_in_range(coefs: usize, rows: usize, i: usize, w: u32) -> bool
    requires { coefs + rows ≤ 65664 }
    ensures { result ≡ stream_word_in_range coefs rows i w }
{
    if i < coefs {
        return !checks::coefficients::out_of_range(signed(w));
    }
    if i < coefs + rows {
        return w <= calls::COMPONENT_LIMIT;
    }
    w == 0
}

// How many words of the stream are coefficients.
pub fn coef_words(file: &[u8]) -> usize
    requires { HeaderRead file.now }
    ensures { result ≡ coef_words file.now }
{
    for_unknowns(file, 1)
}

// How many are components of rows.
pub fn row_words(file: &[u8]) -> usize
    requires { HeaderRead file.now }
    ensures { result ≡ row_words file.now }
{
    for_unknowns(file, 3)
}

// Word `j` of block 0, times the number of unknowns.
fn for_unknowns(file: &[u8], j: usize) -> usize
    requires { (512 ≤ length file.now) × (j < 128) × (word_at file.now j ≤ 4096) × (word_at file.now 2 ≤ 16) }
    ensures { result ≡ word_at file.now j * word_at file.now 2 }
{
    word_at(file, j) as usize * word_at(file, 2) as usize
}
