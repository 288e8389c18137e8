// The calls on typed equations with answers that are one number each, as C and Rust are told them: specs/Codes.antt.
#![tactic(auto)]

ghost use Rattle.std.specs.Prelude.{◌≡◌, ◌+◌, ◌*◌, ◌^◌, ◌≤◌, ◌<◌, length};
ghost use Rattle.calls.specs.Paper as paper;
ghost use Rattle.equation_spec.specs.Outcome.{outcome};
ghost use Rattle.equation_spec.specs.Writing.{write};
ghost use Rattle.equation_read.specs.Answer.{answered, number_of, values_of};
ghost use Rattle.c_equation.specs.Codes.{refusal_code, read_told, write_told};

use calls::Refusal;
use equation_read::equation::EquationRefusal;
use equation_write::WriteRefusal;

pub mod systems; // systems.rt: a system of several lines

// Reads the equation that `text` writes for `q` unknowns; its coefficients go to `row`, its right side to `side`.
pub fn read_equation(text: &[u8], q: usize, row: &mut [i32], side: &mut [i32; 1]) -> u64
    ensures { (result, (row.new, side.new)) ≡
        read_told (answered (outcome q (length row.old) text.now) row.old) side.old }
{
    match equation_read::equation::read_equation(text, q, row) {
        Ok(right) => {
            side[0] = right;
            130
        }
        Err(why) => refusal(why),
    }
}

// Writes the equation of `row`, the coefficients of `q` unknowns, with the right side `right` to the beginning of `out`.
pub fn write_equation(q: usize, row: &[i32], right: i32, out: &mut [u8]) -> u64
    ensures { (result, out.new) ≡ write_told (write q row.now right out.old) }
{
    match equation_write::write_equation(q, row, right, out) {
        Ok(n) => written_code(n),
        Err(why) => match why {
            WriteRefusal::Row(own) => row_refusal(own),
            WriteRefusal::RightSide => 15,
            WriteRefusal::Space => 29,
        },
    }
}

// An equation that was written.
fn written_code(n: usize) -> u64
    requires { n ≤ 256 }
    ensures { result ≡ 131 + 256 * n }
{
    131 + 256 * n as u64
}

fn refusal(why: EquationRefusal) -> u64
    requires { refusal_code (number_of why) (values_of why) < 2 ^ 64 }
    ensures { result ≡ refusal_code (number_of why) (values_of why) }
{
    number_of(why) + 256 * value_of(why) as u64
}

// A refusal that the calls on maps give too.
fn row_refusal(why: Refusal) -> u64
    requires { refusal_code (paper.number_of why) (paper.values_of why) < 2 ^ 64 }
    ensures { result ≡ refusal_code (paper.number_of why) (paper.values_of why) }
{
    calls::number_of(why) + 256 * calls::value_of(why) as u64
}

// The papers' number of a refusal.
pub fn number_of(why: EquationRefusal) -> u64
    ensures { result ≡ number_of why }
{
    match why {
        EquationRefusal::Length => 10,
        EquationRefusal::Unknowns => 2,
        EquationRefusal::Row => 3,
        EquationRefusal::Grammar(_) => 16,
        EquationRefusal::Depth => 17,
        EquationRefusal::Multiplier => 18,
        EquationRefusal::Coefficient(_) => 7,
        EquationRefusal::RightSide => 15,
    }
}

// The value that it comes with: the place for 16 and 7, and 0 for all others.
pub fn value_of(why: EquationRefusal) -> usize
    ensures { result ≡ paper.value (values_of why) }
{
    match why {
        EquationRefusal::Grammar(place) | EquationRefusal::Coefficient(place) => place,
        _ => 0,
    }
}
