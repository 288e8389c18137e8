// The text form of a map (document 01, "The program"): reading it.
#![tactic(auto)]

ghost use Rattle.std.specs.Prelude.{◌≡◌, [], ◌≤◌, drop, length};
ghost use Rattle.map_spec.specs.Reading.{rows, read_rows, accept_rows, read_body, read_map};
ghost use Rattle.map_text.specs.Answer.{outcome, answered};
ghost use Rattle.map_text.specs.Places.{Shape};
ghost use Rattle.map_text.specs.declared.TextRefusal.TheVariants.{Form};

use crate::lines::BadLine;
use checks::coefficients::out_of_range;

mod lines; // lines.rt: lines of numbers

// Why a text is refused; specs/Answer.antt has document 01's number for each.
#[derive(Clone, Copy)]
pub enum TextRefusal {
    Form(usize),
    Length,
    Equations,
    Unknowns,
    Coefficient(usize),
}

impl From<BadLine> for TextRefusal {
    ghost from_gives = { λ line e. e ≡ Form line.0 };

    fn from(line: BadLine) -> TextRefusal {
        TextRefusal::Form(line.0)
    }
}

// The map that a text writes: `p` equations in `q` unknowns.
#[derive(Clone, Copy)]
pub struct Map {
    pub p: usize,
    pub q: usize,
}

// Reads the map that `text` writes; its coefficients go to the beginning of `coefs`, row by row.
pub fn read_map(text: &[u8], coefs: &mut [i32; 128]) -> Result<Map, TextRefusal>
    ensures { outcome result coefs.new ≡ answered (read_map text.now) coefs.old }
{
    if 4096 < text.len() {
        return Err(TextRefusal::Length);
    }
    let mut counts = [0i32; 2];
    let Some(next) = lines::read_line(text, 0, 2, &mut counts, 0) else {
        return Err(TextRefusal::Form(1));
    };
    read_body(text, next, counts[0], counts[1], coefs)
}

// What follows the line "p q", from place `at` on.
fn read_body(text: &[u8], at: usize, p: i32, q: i32, coefs: &mut [i32]) -> Result<Map, TextRefusal>
    requires { 128 ≤ length coefs.old }
    ensures { outcome result coefs.new ≡ answered (read_body p q (drop at text.now)) coefs.old }
{
    if p < 1 || 8 < p {
        return Err(TextRefusal::Equations);
    }
    if q < 1 || 16 < q {
        return Err(TextRefusal::Unknowns);
    }
    read_coefficients(text, at, p as usize, q as usize, coefs)
}

// The lines of coefficients, with counts that are in range.
fn read_coefficients(
    text: &[u8],
    at: usize,
    p: usize,
    q: usize,
    coefs: &mut [i32],
) -> Result<Map, TextRefusal>
    requires { Shape p q (length coefs.old) }
    ensures { outcome result coefs.new ≡ answered (accept_rows p q (read_rows p q 2 [] (drop at text.now))) coefs.old }
{
    let mut found = [0i32; 128];
    lines::read_rows(text, at, p, q, &mut found)?;
    accept(p, q, &found[..p * q], coefs)
}

// The map of these coefficients, if all are in range.
fn accept(p: usize, q: usize, found: &[i32], coefs: &mut [i32]) -> Result<Map, TextRefusal>
    requires { length found.now ≤ length coefs.old }
    ensures { outcome result coefs.new ≡ answered (accept_rows p q (rows found.now)) coefs.old }
{
    if let Some(i) = found.iter().position(|z| out_of_range(*z)) {
        return Err(TextRefusal::Coefficient(i + 1));
    }
    texts::rows::copy(found, coefs);
    Ok(Map { p, q })
}
