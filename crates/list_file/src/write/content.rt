// The words that are written, but for the last of each block.
ghost use Rattle.std.specs.Prelude.{◌≡◌, ◌<◌, ◌≤◌, [], ◌∷◌, slice_index};
ghost use Rattle.list_spec.specs.Form.{stream, content_word};
ghost use Rattle.list_file.specs.WriteAnswer.{list_of};
ghost use Rattle.list_file.specs.BlockLaws.{ContentPlace};

use crate::words::to_word;

// Word `j` of block `b`.
pub fn word(p: usize, q: usize, coefs: &[i32], rows: &[u32], ending: u32, b: usize, j: usize) -> u32
    requires { ContentPlace (list_of p q coefs.now rows.now ending) b j }
    ensures { result ≡ content_word (list_of p q coefs.now rows.now ending) b j }
{
    if j == 0 {
        return b as u32;
    }
    if b == 0 {
        return header_word(p, q, rows.len() / q, ending, j - 1);
    }
    stream_word(coefs, rows, 126 * (b - 1) + (j - 1))
}

// Word `k` of what block 0 carries.
fn header_word(p: usize, q: usize, count: usize, ending: u32, k: usize) -> u32
    requires { (p ≤ 4096) × (q ≤ 4096) × (count ≤ 4096) }
    ensures { result ≡ slice_index (p ∷ q ∷ count ∷ ending ∷ []) k }
{
    match k {
        0 => p as u32,
        1 => q as u32,
        2 => count as u32,
        3 => ending,
        _ => 0,
    }
}

// Word `i` of the stream.
fn stream_word(coefs: &[i32], rows: &[u32], i: usize) -> u32
    ensures { result ≡ slice_index (stream (list_of 0 0 coefs.now rows.now 0)) i }
{
    if i < coefs.len() {
        return to_word(coefs[i]);
    }
    let k = i - coefs.len();
    if k < rows.len() {
        return rows[k];
    }
    0
}
