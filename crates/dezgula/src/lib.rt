// The solver as other languages call it: library/raw.h says the same to C, and library/dezgula.c has the calls of include/ over it. Each function forwards to a
// crate that holds its logic. The run record comes as words (c_record/specs/Words.antt), and an answer goes out as one
// number (calls/specs/Codes.antt, c_record/specs/Codes.antt).
#![tactic(auto)]

ghost use Rattle.std.specs.Prelude.{◌≡◌};
ghost use Rattle.definitions.specs.Highest.{locate};
ghost use Rattle.definitions.specs.Input.{input_of};
ghost use Rattle.definitions.specs.Reasons.{reason};
ghost use Rattle.c_desk.specs.Words.{desk_resume_words, desk_start_words};
ghost use Rattle.c_dispatch.specs.Words.{dispatch_words};
ghost use Rattle.reader.specs.Answers.{located_number};
ghost use Rattle.reasons.specs.Numbers.{reason_told};
ghost use Rattle.c_record.specs.Words.{start_words, resume_words};
ghost use Rattle.c_walk.specs.Rows.{row_told};
ghost use Rattle.c_map.specs.Words.{read_words};
ghost use Rattle.multiples_spec.specs.Parts.{decomposed};
ghost use Rattle.multiples.specs.Answers.{parts_told};
ghost use Rattle.single_spec.specs.Listing.{listing_call};
ghost use Rattle.c_single.specs.SingleFile.{single_start_words, single_resume_words, listing_told};

mod equations; // equations.rt: typed equations
mod files; // files.rt: lists as files
mod lower; // lower.rt: runs from a lower bound
mod questions; // questions.rt: questions about the lists of larger maps
mod reformulations; // reformulations.rt: a map in the place of another
mod rights; // rights.rt: maps with right sides
mod stages; // stages.rt: the whole basis, stage by stage
mod training; // training.rt: the training seat

// The plain start.
#[unsafe(no_mangle)]
pub extern "C" fn dezgula_raw_start(
    p: usize,
    q: usize,
    coefs: &[i32],
    stack: &mut [u32],
    list: &mut [u32],
    run: &mut [u64],
) -> u64
    ensures { (result, (stack.new, (list.new, run.new))) ≡
        start_words p q coefs.now stack.old list.old run.old }
{
    c_walk::start(p, q, coefs, stack, list, run)
}

// The continuing call.
#[unsafe(no_mangle)]
pub extern "C" fn dezgula_raw_resume(
    p: usize,
    q: usize,
    coefs: &[i32],
    stack: &mut [u32],
    list: &mut [u32],
    run: &mut [u64],
    budget: u64,
) -> u64
    ensures { (result, (stack.new, (list.new, run.new))) ≡
        resume_words budget p q coefs.now stack.old list.old run.old }
{
    c_walk::resume(p, q, coefs, stack, list, run, budget)
}

// Row n of a finished list, copied to the beginning of `out`.
#[unsafe(no_mangle)]
pub extern "C" fn dezgula_raw_row(
    list: &[u32],
    q: usize,
    found: usize,
    n: usize,
    out: &mut [u32],
) -> u64
    ensures { (result, out.new) ≡ row_told q list.now found n out.old }
{
    c_walk::rows::tell(list, q, found, n, out)
}

// The plain start of a single-file map.
#[unsafe(no_mangle)]
pub extern "C" fn dezgula_raw_start_single_file(
    p: usize,
    q: usize,
    coefs: &[i32],
    stack: &mut [u32],
    list: &mut [u32],
    run: &mut [u64],
) -> u64
    ensures { (result, (stack.new, (list.new, run.new))) ≡
        single_start_words p q coefs.now stack.old list.old run.old }
{
    c_single::start(p, q, coefs, stack, list, run)
}

// The continuing call of a single-file map.
#[unsafe(no_mangle)]
pub extern "C" fn dezgula_raw_resume_single_file(
    p: usize,
    q: usize,
    coefs: &[i32],
    stack: &mut [u32],
    list: &mut [u32],
    run: &mut [u64],
    budget: u64,
) -> u64
    ensures { (result, (stack.new, (list.new, run.new))) ≡
        single_resume_words budget p q coefs.now stack.old list.old run.old }
{
    c_single::resume(p, q, coefs, stack, list, run, budget)
}

// The listing of a single-file map.
#[unsafe(no_mangle)]
pub extern "C" fn dezgula_raw_listing(
    p: usize,
    q: usize,
    coefs: &[i32],
    list: &[u32],
    found: usize,
    out: &mut [u8],
) -> u64
    ensures { (result, out.new) ≡ listing_told (listing_call (input_of p q coefs.now) list.now found out.old) }
{
    c_single::listed(p, q, coefs, list, found, out)
}

// Up to eight runs at a time.
#[unsafe(no_mangle)]
pub extern "C" fn dezgula_raw_dispatch(
    count: usize,
    quantum: u64,
    turns: u64,
    shares: &[u64],
    coefs: &[i32],
    stack: &mut [u32],
    list: &mut [u32],
    round: &mut [u64],
) -> u64
    ensures { (result, (stack.new, (list.new, round.new))) ≡
        dispatch_words count quantum turns shares.now coefs.now stack.old list.old round.old }
{
    c_dispatch::dispatch(count, quantum, turns, shares, coefs, stack, list, round)
}

// The highest place of a row of the list at or below a tuple.
#[unsafe(no_mangle)]
pub extern "C" fn dezgula_raw_locate(list: &[u32], q: usize, found: usize, tuple: &[u32]) -> u64
    ensures { result ≡ located_number (locate q list.now found tuple.now) }
{
    reader::lookups::locate_number(list, q, found, tuple)
}

// Why a tuple is not in the list: the reason with its place. By how much an equation is off goes to `amount`.
#[unsafe(no_mangle)]
pub extern "C" fn dezgula_raw_reason(
    p: usize,
    q: usize,
    coefs: &[i32],
    list: &[u32],
    found: usize,
    tuple: &[u32],
    amount: &mut [i64; 1],
) -> u64
    ensures { (result, amount.new) ≡
        reason_told (reason (input_of p q coefs.now) list.now found tuple.now) amount.old }
{
    reasons::told::reason(p, q, coefs, list, found, tuple, amount)
}

// What a solution is made of: how often each row is taken goes to `times`, and by how much an equation is off to `amount`.
#[unsafe(no_mangle)]
pub extern "C" fn dezgula_raw_decompose(
    p: usize,
    q: usize,
    coefs: &[i32],
    list: &[u32],
    found: usize,
    tuple: &[u32],
    times: &mut [u32],
    amount: &mut [i64; 1],
) -> u64
    ensures { (result, (times.new, amount.new)) ≡
        parts_told (decomposed (input_of p q coefs.now) list.now found tuple.now times.old)
        amount.old }
{
    multiples::decompose_number(p, q, coefs, list, found, tuple, times, amount)
}

// ---- one desk after the other

// The start of the second of two desks.
#[unsafe(no_mangle)]
pub extern "C" fn dezgula_raw_start_desk(
    p: usize,
    q: usize,
    coefs: &[i32],
    generators: &[u32],
    stack: &mut [u32],
    list: &mut [u32],
    run: &mut [u64],
) -> u64
    ensures { (result, (stack.new, (list.new, run.new))) ≡
        desk_start_words p q coefs.now generators.now stack.old list.old run.old }
{
    c_desk::start(p, q, coefs, generators, stack, list, run)
}

// The continuing call.
#[unsafe(no_mangle)]
pub extern "C" fn dezgula_raw_resume_desk(
    p: usize,
    q: usize,
    coefs: &[i32],
    generators: &[u32],
    stack: &mut [u32],
    list: &mut [u32],
    run: &mut [u64],
    budget: u64,
) -> u64
    ensures { (result, (stack.new, (list.new, run.new))) ≡
        desk_resume_words budget p q coefs.now generators.now stack.old list.old run.old }
{
    c_desk::resume(p, q, coefs, generators, stack, list, run, budget)
}

// Reads the text form of a map.
#[unsafe(no_mangle)]
pub extern "C" fn dezgula_raw_read_map(
    text: &[u8],
    coefs: &mut [i32; 128],
    words: &mut [u64; 2],
) -> u64
    ensures { (result, (coefs.new, words.new)) ≡ read_words text.now coefs.old words.old }
{
    c_map::read_map(text, coefs, words)
}
