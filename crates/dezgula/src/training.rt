// The training seat; library/raw.h says the same to C.
ghost use Rattle.std.specs.Prelude.{◌≡◌};
ghost use Rattle.c_seat.specs.SeatWords.{seat_resume_bounded, seat_resume_words, seat_start_bounded, seat_start_words};

// The plain start.
#[unsafe(no_mangle)]
pub extern "C" fn dezgula_raw_start_training(
    p: usize,
    q: usize,
    coefs: &[i32],
    stack: &mut [u32],
    list: &mut [u32],
    run: &mut [u64],
) -> u64
    ensures { (result, (stack.new, (list.new, run.new))) ≡
        seat_start_words p q coefs.now stack.old list.old run.old }
{
    c_seat::start(p, q, coefs, stack, list, run)
}

// The start of a run from a lower bound.
#[unsafe(no_mangle)]
pub extern "C" fn dezgula_raw_start_training_from(
    p: usize,
    q: usize,
    coefs: &[i32],
    lower: &[u32],
    stack: &mut [u32],
    list: &mut [u32],
    second: &mut [u32],
    run: &mut [u64],
) -> u64
    ensures { (result, (stack.new, (list.new, (second.new, run.new)))) ≡
        seat_start_bounded p q coefs.now lower.now stack.old list.old second.old run.old }
{
    c_seat::start_from(p, q, coefs, lower, stack, list, second, run)
}

// The continuing call of a plain run.
#[unsafe(no_mangle)]
pub extern "C" fn dezgula_raw_resume_training(
    p: usize,
    q: usize,
    coefs: &[i32],
    stack: &mut [u32],
    list: &mut [u32],
    run: &mut [u64],
    budget: u64,
) -> u64
    ensures { (result, (stack.new, (list.new, run.new))) ≡
        seat_resume_words budget p q coefs.now stack.old list.old run.old }
{
    c_seat::resume(p, q, coefs, stack, list, run, budget)
}

// The continuing call of a run from a lower bound.
#[unsafe(no_mangle)]
pub extern "C" fn dezgula_raw_resume_training_from(
    p: usize,
    q: usize,
    coefs: &[i32],
    lower: &[u32],
    stack: &mut [u32],
    list: &mut [u32],
    second: &mut [u32],
    run: &mut [u64],
    budget: u64,
) -> u64
    ensures { (result, (stack.new, (list.new, (second.new, run.new)))) ≡
        seat_resume_bounded budget p q coefs.now lower.now
        stack.old list.old second.old run.old }
{
    c_seat::resume_from(p, q, coefs, lower, stack, list, second, run, budget)
}
