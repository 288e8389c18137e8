// Images under the second group, in a table with rows of 8 numbers.
ghost use Rattle.std.specs.Prelude.{◌≡◌, ◌+◌, ◌*◌, ◌≤◌, ◌<◌, pos, length};
ghost use Rattle.std.specs.Int.Signed.{lt_z};
ghost use Rattle.linear.specs.Systems.{inner};
ghost use Rattle.linear.specs.Tests.{all_to};
ghost use Rattle.definitions.specs.System.{is_zero};
ghost use Rattle.table_rows.specs.Small.{SmallRow};
ghost use Rattle.desk_rows.specs.Images.{Factors, ImageWritten, Images, SmallDesk, SmallMap, entry, image_at};

use table_rows::values;

// Writes into row k the image of the tuple that stands in a table from place `base`.
pub fn write(
    p: usize,
    q: usize,
    coefs: &[i32],
    table: &[u32],
    base: usize,
    k: usize,
    images: &mut [i64; 520],
)
    requires { SmallMap p q coefs.now × SmallRow q table.now base × (k < 65) × (length images.old ≡ 520) }
    ensures { ImageWritten k p (image_at q coefs.now table.now base) images.old images.new }
{
    for i in 0..p {
        images[k * 8 + i] = values::value_at(coefs, i * q, table, base, q);
    }
}

// Writes those of the first n generators.
pub fn write_all(
    p: usize,
    q: usize,
    coefs: &[i32],
    generators: &[u32],
    n: usize,
    images: &mut [i64; 520],
)
    requires { SmallDesk p q coefs.now generators.now × (n ≤ 64) × (n * q ≤ length generators.now) × (length images.old ≡ 520) }
    ensures { Images p q coefs.now generators.now n images.new × (length images.new ≡ 520) }
{
    for k in 0..n {
        write(p, q, coefs, generators, k * q, k, images);
    }
}

// Whether row k is all 0.
pub fn vanishes(p: usize, images: &[i64; 520], k: usize) -> bool
    requires { (p ≤ 8) × (k < 65) }
    ensures { result ≡ all_to p (λ i. is_zero (entry images.now k i)) }
{
    (0..p).all(|i| images[k * 8 + i] == 0)
}

// The inner product of rows a and b.
pub fn product(p: usize, images: &[i64; 520], a: usize, b: usize) -> i64
    requires { Factors p images.now a b }
    ensures { result ≡ inner p (entry images.now a) (entry images.now b) }
{
    let mut sum: i64 = 0;
    for i in 0..p {
        sum = products::sum_and(sum, images[a * 8 + i], images[b * 8 + i]);
    }
    sum
}

pub fn is_below_zero(x: i64) -> bool
    ensures { result ≡ lt_z x (pos 0) }
{
    x < 0
}
