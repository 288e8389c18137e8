// What the listing looks at before the rows: refusals 1, 2, 3, 6, 7 and 26.
ghost use Rattle.std.specs.Prelude.{◌≡◌, ◌*◌, ◌≤◌, length};
ghost use Rattle.definitions.specs.Answers.{◌then◌};
ghost use Rattle.definitions.specs.Refusals.{check7};
ghost use Rattle.definitions.specs.Input.{input_of};
ghost use Rattle.calls.specs.Paper.{check_of};
ghost use Rattle.single_order.specs.Rows.{map_of};
ghost use Rattle.single_spec.specs.Profile.{check26};
ghost use Rattle.single_listing.specs.Passes.{map_checks, shape_checks};

use calls::Refusal;

pub fn check(p: usize, q: usize, coefs: &[i32], list: usize, found: usize) -> Result<(), Refusal>
    ensures { check_of result ≡ map_checks (input_of p q coefs.now) list found }
{
    check_shape(p, q, coefs.len(), list, found)?;
    check_columns(p, q, coefs)
}

// Refusals 1, 2, 3 and 6, from the numbers of coefficients and of entries of the list table.
fn check_shape(p: usize, q: usize, coefs: usize, list: usize, found: usize) -> Result<(), Refusal>
    ensures { check_of result ≡ shape_checks p q coefs list found }
{
    checks::counts::check(p, q, 0, coefs)?;
    if list / q < found {
        return Err(Refusal::OutOfOrder);
    }
    Ok(())
}

// Refusals 7 and 26.
fn check_columns(p: usize, q: usize, coefs: &[i32]) -> Result<(), Refusal>
    requires { p * q ≤ length coefs.now }
    ensures { check_of result ≡ (check7 (input_of p q coefs.now) then check26 (map_of p q coefs.now)) }
{
    checks::coefficients::check(coefs)?;
    single_order::columns::check(p, q, coefs)
}
