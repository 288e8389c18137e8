// Writing the blocks of a file.
ghost use Rattle.std.specs.Prelude.{◌≡◌, ◌+◌, ◌*◌, ◌<◌, ◌≤◌, length};
ghost use Rattle.list_spec.specs.Form.{written};
ghost use Rattle.list_file.specs.WriteAnswer.{list_of};
ghost use Rattle.list_file.specs.BlockLaws.{Writable, AtBlock, Begun, OfRows};

use crate::words::{put_word, wrapping_sum};
use crate::write::content;

// Writes the whole file.
pub fn write(p: usize, q: usize, coefs: &[i32], rows: &[u32], ending: u32, out: &mut [u8])
    requires { Writable (list_of p q coefs.now rows.now ending) (length out.old) }
    ensures { out.new ≡ written (list_of p q coefs.now rows.now ending) }
{
    let blocks = out.len() / 512;
    for b in 0..blocks {
        write_block(p, q, coefs, rows, ending, b, out);
    }
}

// Writes block `b` after the blocks before it: its last word is the wrapping negation of the sum of the first 127.
fn write_block(
    p: usize,
    q: usize,
    coefs: &[i32],
    rows: &[u32],
    ending: u32,
    b: usize,
    out: &mut [u8],
)
    requires { AtBlock (list_of p q coefs.now rows.now ending) b out.old }
    ensures { Begun (list_of p q coefs.now rows.now ending) (128 * (b + 1)) out.new }
{
    write_words(p, q, coefs, rows, ending, b, out);
    let sum = wrapping_sum(out, 128 * b, 127);
    put_word(out, 128 * b + 127, std::num::wrapping_sub_u32(0, sum));
}

// Writes the first 127 words of block `b`: at once where it carries nothing but components, as most blocks do, and else word by word.
fn write_words(
    p: usize,
    q: usize,
    coefs: &[i32],
    rows: &[u32],
    ending: u32,
    b: usize,
    out: &mut [u8],
)
    requires { AtBlock (list_of p q coefs.now rows.now ending) b out.old }
    ensures { Begun (list_of p q coefs.now rows.now ending) (128 * b + 127) out.new }
{
    let end = 126 * b;
    if end < coefs.len() + 126 || coefs.len() + rows.len() < end {
        write_content(p, q, coefs, rows, ending, b, out);
        return;
    }
    let from = end - 126 - coefs.len();
    write_components(p, q, coefs, rows, ending, b, from, out);
}

// Writes them where they are the number of the block and the components from entry `from` of the rows on.
fn write_components(
    p: usize,
    q: usize,
    coefs: &[i32],
    rows: &[u32],
    ending: u32,
    b: usize,
    from: usize,
    out: &mut [u8],
)
    requires { (AtBlock (list_of p q coefs.now rows.now ending) b out.old) × (OfRows (list_of p q coefs.now rows.now ending) b from)
        × (512 * (b + 1) ≤ length out.old) × (b < 1000) }
    ensures { Begun (list_of p q coefs.now rows.now ending) (128 * b + 127) out.new }
{
    put_word(out, 128 * b, b as u32);
    for j in 0..126 {
        let w = rows[from + j];
        put_word(out, 128 * b + 1 + j, w);
    }
}

// Writes them word by word.
fn write_content(
    p: usize,
    q: usize,
    coefs: &[i32],
    rows: &[u32],
    ending: u32,
    b: usize,
    out: &mut [u8],
)
    requires { AtBlock (list_of p q coefs.now rows.now ending) b out.old }
    ensures { Begun (list_of p q coefs.now rows.now ending) (128 * b + 127) out.new }
{
    for j in 0..127 {
        let w = content::word(p, q, coefs, rows, ending, b, j);
        put_word(out, 128 * b + j, w);
    }
}
