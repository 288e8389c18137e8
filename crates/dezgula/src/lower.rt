// Runs from a lower bound; library/raw.h says the same to C.
ghost use Rattle.std.specs.Prelude.{◌≡◌};
ghost use Rattle.c_walk.specs.Lower.{start_bounded, resume_bounded};

// The start.
#[unsafe(no_mangle)]
pub extern "C" fn dezgula_raw_start_from(
    p: usize,
    q: usize,
    coefs: &[i32],
    lower: &[u32],
    stack: &mut [u32],
    list: &mut [u32],
    second: &mut [u32],
    run: &mut [u64],
) -> u64
    ensures { (result, (stack.new, (list.new, (second.new, run.new)))) ≡
        start_bounded p q coefs.now lower.now stack.old list.old second.old run.old }
{
    c_walk::lower::start_from(p, q, coefs, lower, stack, list, second, run)
}

// The continuing call.
#[unsafe(no_mangle)]
pub extern "C" fn dezgula_raw_resume_from(
    p: usize,
    q: usize,
    coefs: &[i32],
    lower: &[u32],
    stack: &mut [u32],
    list: &mut [u32],
    second: &mut [u32],
    run: &mut [u64],
    budget: u64,
) -> u64
    ensures { (result, (stack.new, (list.new, (second.new, run.new)))) ≡
        resume_bounded budget p q coefs.now lower.now stack.old list.old second.old run.old }
{
    c_walk::lower::resume_from(p, q, coefs, lower, stack, list, second, run, budget)
}
