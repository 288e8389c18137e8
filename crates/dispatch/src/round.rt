// Whose turn it is.
ghost use Rattle.std.specs.Prelude.{◌≡◌, ◌≤◌, ◌<◌, IfSome};
ghost use Rattle.dispatch_spec.specs.Dispatch as Dispatch;
ghost use Rattle.dispatch_spec.specs.Dispatch.{stays_in, first_asked, next_after};
ghost use Rattle.dispatch.specs.Form.{last_of, stays_for, found_of};

use crate::types::Progress;
use calls::Answer;

// Whether a run is in the round.
pub fn stays(p: Progress) -> bool
    ensures { result ≡ stays_in p.run.height (last_of p.last) }
{
    match p.last {
        None => 0 < p.run.height,
        Some(Answer::Paused) => true,
        Some(_) => false,
    }
}

// The first run that is asked.
fn first_asked(count: usize, last: usize) -> usize
    ensures { result ≡ first_asked count last }
{
    if last < count { last } else { 0 }
}

// The run that is asked k runs further.
fn further(count: usize, start: usize, k: usize) -> usize
    requires { (count ≤ 8) × (start < count) × (k < count) }
    ensures { (result ≡ Dispatch.further count start k) × (result < count) }
{
    if start + k < count {
        start + k
    } else {
        start + k - count
    }
}

// The first run asked that is in the round, rising from the one after the run served last.
pub fn next_after(count: usize, last: usize, progress: [Progress; 8]) -> Option<usize>
    requires { (0 < count) × (count ≤ 8) }
    ensures found { found_of result ≡ next_after count last (stays_for progress) }
    ensures below { IfSome result (λ i. i < count) }
{
    let start = first_asked(count, last);
    // A find over these places would tell k, and the run would be worked out of it once more.
    for k in 0..count {
        let i = further(count, start, k);
        if stays(progress[i]) {
            return Some(i);
        }
    }
    None
}
