// Equations as people write them (document 02, Job 3); library/raw.h says the same to C.
ghost use Rattle.std.specs.Prelude.{◌≡◌, length};
ghost use Rattle.equation_spec.specs.Outcome.{outcome};
ghost use Rattle.equation_spec.specs.Writing.{write};
ghost use Rattle.equation_read.specs.Answer.{answered};
ghost use Rattle.equation_spec.specs.Systems.{read_system};
ghost use Rattle.c_equation.specs.Codes.{read_told, write_told, system_told};

// Reads the equation that `text` writes for `q` unknowns; its coefficients go to `row`, its right side to `side`.
#[unsafe(no_mangle)]
pub extern "C" fn dezgula_raw_read_equation(
    text: &[u8],
    q: usize,
    row: &mut [i32],
    side: &mut [i32; 1],
) -> u64
    ensures { (result, (row.new, side.new)) ≡
        read_told (answered (outcome q (length row.old) text.now) row.old) side.old }
{
    c_equation::read_equation(text, q, row, side)
}

// Writes the equation of `row`, the coefficients of `q` unknowns, with the right side `right` to the beginning of `out`.
#[unsafe(no_mangle)]
pub extern "C" fn dezgula_raw_write_equation(
    q: usize,
    row: &[i32],
    right: i32,
    out: &mut [u8],
) -> u64
    ensures { (result, out.new) ≡ write_told (write q row.now right out.old) }
{
    c_equation::write_equation(q, row, right, out)
}

// Reads the system that `text` writes for `q` unknowns, one equation a line; its coefficients go to the beginning of `coefs`, its right sides to that of
// `rights`. A refusal comes with its line, and where in the line goes to `within`.
#[unsafe(no_mangle)]
pub extern "C" fn dezgula_raw_read_system(
    text: &[u8],
    q: usize,
    coefs: &mut [i32],
    rights: &mut [i32],
    within: &mut [u64; 1],
) -> u64
    ensures { (result, (coefs.new, (rights.new, within.new))) ≡
        system_told (read_system q text.now coefs.old rights.old) within.old }
{
    c_equation::systems::read_system(text, q, coefs, rights, within)
}
