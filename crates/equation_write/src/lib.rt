// Writing a row as people write an equation.
#![tactic(auto)]

ghost use Rattle.std.specs.Prelude.{◌≡◌, ◌+◌, ◌≤◌, ◌<◌, ltb, nat_abs, length};
ghost use Rattle.texts.specs.Put.{Put};
ghost use Rattle.definitions.specs.Answers.{◌then◌, refuse_if};
ghost use Rattle.definitions.specs.Refusals.{out_of_range};
ghost use Rattle.equation_spec.specs.Writing.{multiple as multiple_text, terms as terms_text, written, put_out, write};
ghost use Rattle.equation_write.specs.Texts.{lead_text, term_text, InRange};
ghost use Rattle.equation_write.specs.Answer.{wrote_by};
ghost use Rattle.equation_write.specs.declared.WriteRefusal.TheVariants.{Row};

use calls::Refusal;
use checks::coefficients::out_of_range;
use texts::put::{byte, number, signed, size, word};

// Why a row is not written; specs/Answer.antt has the papers' number for each.
#[derive(Clone, Copy)]
pub enum WriteRefusal {
    Row(Refusal),
    RightSide,
    Space,
}

impl From<Refusal> for WriteRefusal {
    ghost from_gives = { λ why e. e ≡ Row why };

    fn from(why: Refusal) -> WriteRefusal {
        WriteRefusal::Row(why)
    }
}

// Writes the equation of `row`, the coefficients of `q` unknowns, with the right side `right` to the beginning of `out`, and
// answers how many bytes it has.
pub fn write_equation(
    q: usize,
    row: &[i32],
    right: i32,
    out: &mut [u8],
) -> Result<usize, WriteRefusal>
    ensures { wrote_by result out.new ≡ write q row.now right out.old }
{
    if q < 1 || 16 < q {
        return Err(WriteRefusal::Row(Refusal::Unknowns));
    }
    if row.len() != q {
        return Err(WriteRefusal::Row(Refusal::CoefficientCount));
    }
    checks::coefficients::check(row)?;
    write_row(row, right, out)
}

// A row whose coefficients are in range.
fn write_row(row: &[i32], right: i32, out: &mut [u8]) -> Result<usize, WriteRefusal>
    requires { (length row.now ≤ 16) × InRange row.now }
    ensures { wrote_by result out.new
        ≡ put_out (refuse_if (out_of_range right) 15 then refuse_if (ltb (length out.old) (length (written row.now right))) 29)
        (written row.now right) out.old }
{
    if out_of_range(right) {
        return Err(WriteRefusal::RightSide);
    }
    let mut text = [0u8; 256];
    let n = sides(&mut text, row, right);
    hand_out(&text[..n], out)
}

// A text, if there is space for it.
fn hand_out(text: &[u8], out: &mut [u8]) -> Result<usize, WriteRefusal>
    ensures { wrote_by result out.new
        ≡ put_out (refuse_if (ltb (length out.old) (length text.now)) 29) text.now out.old }
{
    if out.len() < text.len() {
        return Err(WriteRefusal::Space);
    }
    Ok(word(out, 0, text))
}

// Both sides of an equation, at the beginning.
fn sides(out: &mut [u8], row: &[i32], right: i32) -> usize
    requires { (length row.now ≤ 16) × InRange row.now × (nat_abs right ≤ 10000) × (256 ≤ length out.old) }
    ensures put { Put out.old 0 (written row.now right) out.new result }
    ensures upper_bound { result ≤ 256 }
{
    let next = terms(out, row);
    let number = word(out, next, b" = ");
    signed(out, number, right)
}

// `m` times unknown `k`.
fn multiple(out: &mut [u8], at: usize, m: u64, k: usize) -> usize
    requires { (1 ≤ m) × (at + length (multiple_text m k) ≤ length out.old) }
    ensures { Put out.old at (multiple_text m k) out.new result }
{
    if m == 1 {
        let next = byte(out, at, b'x');
        return number(out, next, k as u64);
    }
    let star = number(out, at, m);
    let letter = word(out, star, b"*x");
    number(out, letter, k as u64)
}

// The sign before a term: after another one, or before the first.
fn lead(out: &mut [u8], at: usize, first: bool, minus: bool) -> usize
    requires { at + 3 ≤ length out.old }
    ensures { Put out.old at (lead_text first minus) out.new result }
{
    match (first, minus) {
        (true, true) => byte(out, at, b'-'),
        (true, false) => at,
        (false, true) => word(out, at, b" - "),
        (false, false) => word(out, at, b" + "),
    }
}

// A term that is not zero: its sign and size, and its unknown.
fn term(out: &mut [u8], at: usize, first: bool, c: i32, k: usize) -> usize
    requires { (1 ≤ nat_abs c) × (nat_abs c ≤ 10000) × (k ≤ 99) × (at + 12 ≤ length out.old) }
    ensures { Put out.old at (term_text first c k) out.new result }
{
    let next = lead(out, at, first, c < 0);
    multiple(out, next, size(c), k)
}

// The left side at the beginning: the terms of the row, or 0.
fn terms(out: &mut [u8], row: &[i32]) -> usize
    requires { (length row.now ≤ 16) × InRange row.now × (256 ≤ length out.old) }
    ensures { Put out.old 0 (terms_text 1 row.now) out.new result }
{
    let mut next = 0;
    let mut first = true;
    for (i, c) in row.iter().enumerate() {
        if *c == 0 {
            continue;
        }
        next = term(out, next, first, *c, i + 1);
        first = false;
    }
    if first { byte(out, next, b'0') } else { next }
}
