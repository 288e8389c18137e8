// Handing out what a file holds.
ghost use Rattle.std.specs.Prelude.{◌≡◌, ℕ, ◌+◌, ◌*◌, ◌/◌, ◌%◌, ◌<◌, ◌≤◌, List, Ok, ◌++◌, length, drop};
ghost use Rattle.list_spec.specs.Words.{signed as signed_word};
ghost use Rattle.list_spec.specs.Reading.{stream_at, listed, list_in, handed_out};
ghost use Rattle.list_file.specs.ReadAnswer.{read_outcome};
ghost use Rattle.list_file.specs.ReadLaws.{Readable, InBlock, Filled};

use crate::read::Read;
use crate::read::checking::{coef_words, row_words};
use crate::words::{signed, word_at};
use calls::Solutions;

// Copies the coefficients and the rows of a file in order to the beginning of the tables.
pub fn hand_out(file: &[u8], coefs: &mut [i32], list: &mut [u32]) -> Read
    requires { Readable file.now (length coefs.old) (length list.old) }
    ensures { read_outcome (Ok result) coefs.new list.new ≡ handed_out (list_in file.now) coefs.old list.old }
{
    let first = coef_words(file);
    let numbers = row_words(file);
    copy_coefs(file, first, coefs);
    copy_rows(file, first, numbers, list);
    Read {
        p: word_at(file, 1) as usize,
        q: word_at(file, 2) as usize,
        found: Solutions(word_at(file, 3) as usize),
        ending: word_at(file, 4),
    }
}

// Copies the first `n` words of the stream as coefficients.
fn copy_coefs(file: &[u8], n: usize, coefs: &mut [i32])
    requires { (n ≤ length coefs.old) × (512 * ((n + 125) / 126 + 1) ≤ length file.now) }
    ensures { coefs.new ≡ listed n (λ i. signed_word (stream_at file.now i)) ++ drop n coefs.old }
{
    for i in 0..n {
        coefs[i] = signed(stream_word(file, i));
    }
}

// Copies `n` words of the stream, from word `first` on, a block at a time.
fn copy_rows(file: &[u8], first: usize, n: usize, list: &mut [u32])
    requires { (n ≤ length list.old) × (512 * ((first + n + 125) / 126 + 1) ≤ length file.now) × (first + n ≤ 65664) }
    ensures { list.new ≡ listed n (λ i. stream_at file.now (first + i)) ++ drop n list.old }
{
    let mut i = 0;
    // A while, as it goes a block at a time, and the first and the last are cut.
    while i < n {
        let m = smaller(n - i, 126 - (first + i) % 126);
        copy_part(file, first, i, m, list);
        i += m;
    }
}

fn smaller(a: usize, b: usize) -> usize
    requires { (1 ≤ a) × (1 ≤ b) }
    ensures { (1 ≤ result) × (result ≤ a) × (result ≤ b) }
{
    if a < b { a } else { b }
}

// Copies `m` of these words, from the one for entry `i` of the list on; all of them stand in one block.
fn copy_part(file: &[u8], first: usize, i: usize, m: usize, list: &mut [u32])
    requires { InBlock (first + i) m (length file.now) × (i + m ≤ length list.old) }
    ensures { (table : List ℕ) → Filled (λ k. stream_at file.now (first + k)) i table list.old
        → Filled (λ k. stream_at file.now (first + k)) (i + m) table list.new }
{
    let at = place(first + i);
    for j in 0..m {
        list[i + j] = word_at(file, at + j);
    }
}

// The word of the file that is word `i` of the stream.
fn place(i: usize) -> usize
    requires { i < 65664 }
    ensures { result ≡ 128 * (i / 126 + 1) + (i % 126 + 1) }
{
    128 * (i / 126 + 1) + (i % 126 + 1)
}

// Word `i` of the stream.
fn stream_word(file: &[u8], i: usize) -> u32
    requires { 512 * (i / 126 + 2) ≤ length file.now }
    ensures { result ≡ stream_at file.now i }
{
    word_at(file, 128 * (i / 126 + 1) + (i % 126 + 1))
}
