// Lines of a text, and the equation on each.
ghost use Rattle.std.specs.Prelude.{◌≡◌, [], ◌+◌, ◌*◌, ◌≤◌, ◌<◌, length, take, drop};
ghost use Rattle.equation_spec.specs.Outcome.{outcome};
ghost use Rattle.equation_spec.specs.Lines.{line_length, line_count};
ghost use Rattle.equation_spec.specs.Systems.{rows, at_line, read_lines};
ghost use Rattle.equation_systems.specs.Answer.{rows_by, row_by, Shape};

use equation_read::equation::{EquationRefusal, read_equation};

// The first line that no newline ends, or that is refused, by its number from 1.
#[derive(Clone, Copy)]
pub enum BadLine {
    Newline(usize),
    Refused(usize, EquationRefusal),
}

// How many lines the text has.
pub fn count(text: &[u8]) -> usize
    ensures { result ≡ line_count text.now }
{
    let mut n = 0;
    for i in (0..text.len()).rev() {
        if text[i] == b'\n' {
            n += 1;
        } else if n == 0 {
            n = 1;
        }
    }
    n
}

// The place of the first newline from place `at` on, or that after the text.
pub fn line_end(text: &[u8], at: usize) -> usize
    requires { at ≤ length text.now }
    ensures { (result ≡ at + line_length (drop at text.now)) × (result ≤ length text.now) }
{
    let mut end = at;
    // A while: a search for the newline would have to say where the text ends in the place of None.
    while end < text.len() && text[end] != b'\n' {
        end += 1;
    }
    end
}

// The first `p` lines, equations in `q` unknowns. The coefficients go to the beginning of `coefs`, row by row, the right sides to that of `rights`.
pub fn read_lines(
    text: &[u8],
    p: usize,
    q: usize,
    coefs: &mut [i32],
    rights: &mut [i32],
) -> Result<(), BadLine>
    requires { Shape p q (length coefs.old) (length rights.old) }
    ensures { rows_by result (take (p * q) coefs.new) (take p rights.new) ≡ read_lines p q 1 [] [] text.now }
{
    let mut at = 0;
    for i in 0..p {
        let end = line_end(text, at);
        if text.len() <= end {
            return Err(BadLine::Newline(i + 1));
        }
        if let Err(why) = read_row(&text[at..end], q, i, coefs, rights) {
            return Err(BadLine::Refused(i + 1, why));
        }
        at = end + 1;
    }
    Ok(())
}

// The equation on line `i`, from 0: its coefficients go to row `i` of `coefs`, its right side to place `i` of `rights`.
fn read_row(
    line: &[u8],
    q: usize,
    i: usize,
    coefs: &mut [i32],
    rights: &mut [i32],
) -> Result<(), EquationRefusal>
    requires { (i * q + q ≤ length coefs.old) × (i < length rights.old) }
    ensures { row_by (i + 1) result (take (i * q + q) coefs.new) (take (i + 1) rights.new)
        ≡ at_line (i + 1) (take (i * q) coefs.old) (take i rights.old) (outcome q q line.now) rows }
{
    let base = i * q;
    rights[i] = read_equation(line, q, &mut coefs[base..base + q])?;
    Ok(())
}
