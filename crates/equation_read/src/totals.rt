// Numbers collected: the constants at place 0, and unknown k at place k. Small functions with contracts in ℤ.
ghost use Rattle.std.specs.Prelude.{◌≡◌, ◌≤◌, pos, nat_abs, ◌+ℤ◌, ◌*ℤ◌, get_or};
ghost use Rattle.definitions.specs.Refusals.{out_of_range};
ghost use Rattle.equation_read.specs.Totals.{add_at, signed_by, bounded};

// Adds `v` at place `k`.
pub fn add_at(totals: &mut [i64; 17], k: usize, v: i64)
    requires { (k ≤ 16) × (nat_abs (get_or totals.old k (pos 0)) ≤ 5000000000000) × (nat_abs v ≤ 1000000000) }
    ensures { totals.new ≡ add_at k v totals.old }
{
    let sum = plus(totals[k], v);
    totals[k] = sum;
}

fn plus(a: i64, b: i64) -> i64
    requires { (nat_abs a ≤ 5000000000000) × (nat_abs b ≤ 1000000000) }
    ensures { result ≡ a +ℤ b }
{
    a + b
}

// `times`, or its negation.
pub fn signed(minus: bool, times: i64) -> i64
    requires { nat_abs times ≤ 10000 }
    ensures { result ≡ signed_by minus times }
{
    if minus { -times } else { times }
}

pub fn scaled(times: i64, n: u32) -> i64
    requires { (nat_abs times ≤ 10000) × (n ≤ 99999) }
    ensures { result ≡ times *ℤ pos n }
{
    times * (n as i64)
}

// Whether a multiplier, a coefficient or a right side is out of range.
pub fn out_of_range(times: i64) -> bool
    ensures { result ≡ out_of_range times }
{
    10000 < times.unsigned_abs()
}

// The multiplier with which the sum in a bracket is read: 0 if it is out of range, as the sum then does not matter.
pub fn within(times: i64) -> i64
    ensures { result ≡ bounded times }
{
    if out_of_range(times) { 0 } else { times }
}
