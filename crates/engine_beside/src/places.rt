// What is done at each of n places.
ghost use Rattle.std.specs.Prelude.{◌≡◌, ℕ, Bool, ◌≤◌, ◌<◌, length};
ghost use Rattle.linear.specs.Tests.{all_to};
ghost use Rattle.engine_beside.specs.Writing.{Written};

// Whether a test holds at each of n places. It looks at every place: with no way out of the loop, several are tested at a time.
pub fn at_every<F: Fn(usize) -> bool>(n: usize, test: F) -> bool
    requires { (j : ℕ) → j < n → F.pre test j }
    ensures { (f : ℕ → Bool) → ((j : ℕ) (b : Bool) → j < n → F.post test j b → b ≡ f j) → result ≡ all_to n f }
{
    let mut every = true;
    for j in 0..n {
        every &= test(j);
    }
    every
}

// Writes the first n entries of a table.
pub fn write_first<T: Copy, F: Fn(usize) -> T>(entries: &mut [T], n: usize, entry: F)
    requires { (n ≤ length entries.old) × ((i : ℕ) → i < n → F.pre entry i) }
    ensures { Written (F.post entry) n entries.old entries.new }
{
    for i in 0..n {
        entries[i] = entry(i);
    }
}
