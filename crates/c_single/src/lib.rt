// Single-file maps: the start and the continuing call on a record of words, and the listing with its answer as one number.
#![tactic(auto)]

ghost use Rattle.std.specs.Prelude.{◌≡◌};
ghost use Rattle.definitions.specs.Input.{input_of};
ghost use Rattle.single_spec.specs.Listing.{listing_call};
ghost use Rattle.c_single.specs.SingleFile.{single_start_words, single_resume_words, listing_told};

use c_record::{tell, words};
use calls::Solutions;

// The plain start.
pub fn start(
    p: usize,
    q: usize,
    coefs: &[i32],
    stack: &mut [u32],
    list: &mut [u32],
    run: &mut [u64],
) -> u64
    ensures { (result, (stack.new, (list.new, run.new))) ≡
        single_start_words p q coefs.now stack.old list.old run.old }
{
    if run.len() == 7 {
        let r = words::read(run);
        let o = single::started(p, q, coefs, stack, list, r);
        return tell(o, run);
    }
    c_record::misfit::misfit(p, q, coefs, stack, list, run)
}

// The continuing call.
pub fn resume(
    p: usize,
    q: usize,
    coefs: &[i32],
    stack: &mut [u32],
    list: &mut [u32],
    run: &mut [u64],
    budget: u64,
) -> u64
    ensures { (result, (stack.new, (list.new, run.new))) ≡
        single_resume_words budget p q coefs.now stack.old list.old run.old }
{
    let r = words::read(run);
    let o = single::resumed(p, q, coefs, stack, list, r, budget);
    tell(o, run)
}

// The listing.
pub fn listed(p: usize, q: usize, coefs: &[i32], list: &[u32], found: usize, out: &mut [u8]) -> u64
    ensures { (result, out.new) ≡ listing_told (listing_call (input_of p q coefs.now) list.now found out.old) }
{
    match single_listing::listed(p, q, coefs, list, Solutions(found), out) {
        Ok(n) => calls::codes::coded(104, n),
        Err(why) => {
            calls::codes::coded(
                single_listing::number_of(why),
                single_listing::value_of(why),
            )
        }
    }
}
