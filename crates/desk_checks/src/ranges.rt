// The range of the coefficients: refusal 7; and, after it, of the generators' number and images: 25.
ghost use Rattle.std.specs.Prelude.{◌≡◌, ◌<◌, ltb, nat_abs, length};
ghost use Rattle.linear.specs.Tests.{any_to};
ghost use Rattle.definitions.specs.System.{image_of};
ghost use Rattle.desk_spec.specs.Desks.{desk_of, generator, generator_count, image_limit, ranges_checks, second_group, wide};
ghost use Rattle.calls.specs.Paper.{check_of};
ghost use Rattle.desk_rows.specs.Images.{SmallDesk};
ghost use Rattle.desk_checks.specs.Shape.{Handed};

use calls::Refusal;
use checks::coefficients;
use table_rows::values;

pub fn check(p: usize, q: usize, coefs: &[i32], generators: &[u32]) -> Result<(), Refusal>
    requires { Handed p q (length coefs.now) generators.now }
    ensures { check_of result ≡ ranges_checks (desk_of p q coefs.now generators.now) }
{
    coefficients::check(coefs)?;
    if is_wide(p, q, coefs, generators) {
        return Err(Refusal::Generators);
    }
    Ok(())
}

// Whether there are more than 64 generators, or one has an image above 7,000,000 in size.
fn is_wide(p: usize, q: usize, coefs: &[i32], generators: &[u32]) -> bool
    requires { SmallDesk p q coefs.now generators.now }
    ensures { result ≡ wide (desk_of p q coefs.now generators.now) }
{
    let n = generators.len() / q;
    64 < n || (0..n).any(|k| wide_image(p, q, coefs, generators, k))
}

// Whether the image of generator k is.
fn wide_image(p: usize, q: usize, coefs: &[i32], generators: &[u32], k: usize) -> bool
    requires { SmallDesk p q coefs.now generators.now × (k < generator_count (desk_of p q coefs.now generators.now)) }
    ensures { result
        ≡ any_to p
        (λ i. ltb image_limit
        (nat_abs (image_of (second_group (desk_of p q coefs.now generators.now))
        (generator (desk_of p q coefs.now generators.now) k) i))) }
{
    (0..p).any(|i| wide_value(p, q, coefs, generators, k, i))
}

// Whether number i of that image is.
fn wide_value(p: usize, q: usize, coefs: &[i32], generators: &[u32], k: usize, i: usize) -> bool
    requires { SmallDesk p q coefs.now generators.now × (k < generator_count (desk_of p q coefs.now generators.now)) × (i < p) }
    ensures { result
        ≡ ltb image_limit
        (nat_abs (image_of (second_group (desk_of p q coefs.now generators.now))
        (generator (desk_of p q coefs.now generators.now) k) i)) }
{
    is_large(values::value_at(coefs, i * q, generators, k * q, q))
}

// Whether x is above 7,000,000 in size.
fn is_large(x: i64) -> bool
    ensures { result ≡ ltb image_limit (nat_abs x) }
{
    7000000 < x.unsigned_abs()
}
