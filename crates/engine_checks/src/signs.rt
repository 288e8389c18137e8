// Tests of one number: a coefficient, a mark.
ghost use Rattle.std.specs.Prelude.{◌≡◌, ◌<◌, leb, nat_abs};
ghost use Rattle.definitions.specs.Tables.{frozen};
ghost use Rattle.engine_spec.specs.Beside.{coefficient_limit};

// The most that a coefficient of the working system may be, above zero or below.
const COEFFICIENT_LIMIT: u64 = 1000000;

// Whether a coefficient is within the working system's limit, also one that is yet to be written.
pub fn is_small(x: i64) -> bool
    ensures { result ≡ leb (nat_abs x) coefficient_limit }
{
    x.unsigned_abs() <= COEFFICIENT_LIMIT
}

// Whether equation k is done.
pub fn is_done(done: u32, k: usize) -> bool
    requires { k < 32 }
    ensures { result ≡ frozen done k }
{
    (done >> k) % 2 == 1
}
