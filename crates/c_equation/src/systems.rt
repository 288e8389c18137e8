// A system of several lines, with an answer that is one number.
ghost use Rattle.std.specs.Prelude.{◌≡◌, ◌+◌, ◌*◌, ◌^◌, ◌≤◌, ◌<◌};
ghost use Rattle.calls.specs.Paper.{value};
ghost use Rattle.equation_spec.specs.Systems.{read_system};
ghost use Rattle.equation_systems.specs.Answer.{number_of, values_of};
ghost use Rattle.c_equation.specs.Codes.{second, refusal_code, system_told};

use crate::{number_of, value_of};
use equation_systems::SystemRefusal;

// Reads the system that `text` writes for `q` unknowns, one equation a line; its coefficients go to the beginning of `coefs`, its right sides to that of
// `rights`. A refusal comes with its line, and where in the line goes to `within`.
pub fn read_system(
    text: &[u8],
    q: usize,
    coefs: &mut [i32],
    rights: &mut [i32],
    within: &mut [u64; 1],
) -> u64
    ensures { (result, (coefs.new, (rights.new, within.new))) ≡
        system_told (read_system q text.now coefs.old rights.old) within.old }
{
    match equation_systems::read_system(text, q, coefs, rights) {
        Ok(p) => read_code(p),
        Err(why) => {
            within[0] = place(why) as u64;
            refusal(why)
        }
    }
}

// A system that was read.
fn read_code(p: usize) -> u64
    requires { p ≤ 8 }
    ensures { result ≡ 132 + 256 * p }
{
    132 + 256 * p as u64
}

fn refusal(why: SystemRefusal) -> u64
    requires { refusal_code (number_of why) (values_of why) < 2 ^ 64 }
    ensures { result ≡ refusal_code (number_of why) (values_of why) }
{
    number(why) + 256 * line(why) as u64
}

// The papers' number.
fn number(why: SystemRefusal) -> u64
    ensures { result ≡ number_of why }
{
    match why {
        SystemRefusal::Length => 10,
        SystemRefusal::Equations => 1,
        SystemRefusal::Unknowns => 2,
        SystemRefusal::Newline(_) => 9,
        SystemRefusal::Line(_, own) => number_of(own),
        SystemRefusal::Tables => 29,
    }
}

// The line, from 1; 0 where it is about none.
fn line(why: SystemRefusal) -> usize
    ensures { result ≡ value (values_of why) }
{
    match why {
        SystemRefusal::Newline(line) | SystemRefusal::Line(line, _) => line,
        _ => 0,
    }
}

// The value of the line's own refusal; 0 where there is none.
fn place(why: SystemRefusal) -> usize
    ensures { result ≡ second (values_of why) }
{
    match why {
        SystemRefusal::Line(_, own) => value_of(own),
        _ => 0,
    }
}
