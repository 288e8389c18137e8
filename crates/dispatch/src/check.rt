// Refusals 27 and 28.
ghost use Rattle.std.specs.Prelude.{◌≡◌, not, ◌+◌, ◌<◌, ◌≤◌};
ghost use Rattle.linear.specs.Tests.{all_to};
ghost use Rattle.dispatch_spec.specs.Parts as parts_in;
ghost use Rattle.dispatch_spec.specs.Parts.{all_fit, none_overlap, apart};
ghost use Rattle.dispatch.specs.Form.{part_for, parts_at, verdict_of, checks_for};
ghost use Rattle.dispatch.specs.Clear.{Within};

use crate::types::{Fault, Part, Share};

// Whether a part lies in a table of so many numbers.
fn fits(len: usize, a: Part) -> bool
    ensures { result ≡ parts_in.fits len (part_for a) }
{
    a.start <= len && a.size <= len - a.start
}

// Whether two parts that lie in a table have a place in common.
fn overlap(a: Part, b: Part, len: usize) -> bool
    requires { (a.start + a.size ≤ len) × (b.start + b.size ≤ len) }
    ensures { result ≡ parts_in.overlap (part_for a) (part_for b) }
{
    let a_end = a.start + a.size;
    let b_end = b.start + b.size;
    a.start < a_end && a.start < b_end && b.start < a_end && b.start < b_end
}

// Whether each of the runs' parts lies in the table.
fn all_fit(count: usize, parts: [Part; 8], len: usize) -> bool
    requires { count ≤ 8 }
    ensures { result ≡ all_fit count len (parts_at parts) }
{
    (0..count).all(|i| fits(len, parts[i]))
}

// Whether a part overlaps none of the first n runs' parts. All of them lie in a table.
fn clear(n: usize, a: Part, parts: [Part; 8], len: usize) -> bool
    requires { (n ≤ 8) × (a.start + a.size ≤ len) × Within n len (parts_at parts) }
    ensures { result ≡ all_to n (λ j. not (parts_in.overlap (part_for a) (parts_at parts j))) }
{
    (0..n).all(|j| !overlap(a, parts[j], len))
}

// Whether no two of the runs' parts overlap. All of them lie in a table.
fn none_overlap(count: usize, parts: [Part; 8], len: usize) -> bool
    requires { (count ≤ 8) × Within count len (parts_at parts) }
    ensures { result ≡ none_overlap count (parts_at parts) }
{
    (0..count).all(|i| clear(i, parts[i], parts, len))
}

// Whether the runs' parts lie in the table and no two overlap.
fn parts_apart(count: usize, parts: [Part; 8], len: usize) -> bool
    requires { count ≤ 8 }
    ensures { result ≡ apart count len (parts_at parts) }
{
    all_fit(count, parts, len) && none_overlap(count, parts, len)
}

// What a call looks at before any turn.
pub fn check(
    count: usize,
    shares: [Share; 8],
    quantum: u64,
    last: usize,
    stack_length: usize,
    list_length: usize,
) -> Result<(), Fault>
    ensures { verdict_of result ≡ checks_for count shares quantum last stack_length list_length }
{
    if count == 0 || 8 < count || quantum == 0 || 8 < last {
        return Err(Fault::Schedule);
    }
    let stacks = shares.map(|share| share.stack);
    let lists = shares.map(|share| share.list);
    if parts_apart(count, stacks, stack_length) && parts_apart(count, lists, list_length) {
        Ok(())
    } else {
        Err(Fault::Parts)
    }
}
