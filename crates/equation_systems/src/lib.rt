// A system typed as several lines: reading it.
#![tactic(auto)]

ghost use Rattle.std.specs.Prelude.{◌≡◌, [], ◌≤◌};
ghost use Rattle.equation_spec.specs.Systems.{read_lines, of_rows, accepted, handed_out, read_system};
ghost use Rattle.equation_systems.specs.Answer.{answer_of, RefusesLine};

use crate::lines::BadLine;
use equation_read::equation::EquationRefusal;
use texts::rows::copy;

mod lines; // lines.rt: the lines in turn

// Why a system is refused; specs/Answer.antt has the papers' number for each.
#[derive(Clone, Copy)]
pub enum SystemRefusal {
    Length,
    Equations,
    Unknowns,
    Newline(usize),
    Line(usize, EquationRefusal),
    Tables,
}

impl From<BadLine> for SystemRefusal {
    ghost from_gives = { λ line e. RefusesLine line e };

    fn from(line: BadLine) -> SystemRefusal {
        match line {
            BadLine::Newline(n) => SystemRefusal::Newline(n),
            BadLine::Refused(n, why) => SystemRefusal::Line(n, why),
        }
    }
}

// Reads the system that `text` writes for `q` unknowns, one equation a line, and answers how many there are. Its coefficients go to the beginning of `coefs`,
// row by row, and its right sides to the beginning of `rights`.
pub fn read_system(
    text: &[u8],
    q: usize,
    coefs: &mut [i32],
    rights: &mut [i32],
) -> Result<usize, SystemRefusal>
    ensures { answer_of result coefs.new rights.new ≡ read_system q text.now coefs.old rights.old }
{
    if 4096 < text.len() {
        return Err(SystemRefusal::Length);
    }
    let p = lines::count(text);
    if p < 1 || 8 < p {
        return Err(SystemRefusal::Equations);
    }
    if q < 1 || 16 < q {
        return Err(SystemRefusal::Unknowns);
    }
    read_equations(text, p, q, coefs, rights)
}

// The lines of a text, with counts that are in range.
fn read_equations(
    text: &[u8],
    p: usize,
    q: usize,
    coefs: &mut [i32],
    rights: &mut [i32],
) -> Result<usize, SystemRefusal>
    requires { (p ≤ 8) × (q ≤ 16) }
    ensures { answer_of result coefs.new rights.new
        ≡ handed_out (of_rows p (read_lines p q 1 [] [] text.now)) coefs.old rights.old }
{
    let mut found = [0i32; 128];
    let mut sides = [0i32; 8];
    lines::read_lines(text, p, q, &mut found, &mut sides)?;
    hand_out(p, &found[..p * q], &sides[..p], coefs, rights)
}

// What was read, where both tables are long enough for it.
fn hand_out(
    p: usize,
    found: &[i32],
    sides: &[i32],
    coefs: &mut [i32],
    rights: &mut [i32],
) -> Result<usize, SystemRefusal>
    ensures { answer_of result coefs.new rights.new
        ≡ handed_out (accepted p found.now sides.now) coefs.old rights.old }
{
    if coefs.len() < found.len() {
        return Err(SystemRefusal::Tables);
    }
    if rights.len() < sides.len() {
        return Err(SystemRefusal::Tables);
    }
    copy(found, coefs);
    copy(sides, rights);
    Ok(p)
}
