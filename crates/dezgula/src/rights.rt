// Maps with right sides; library/raw.h says the same to C.
ghost use Rattle.std.specs.Prelude.{◌≡◌};
ghost use Rattle.c_walk.specs.Capped.{start_sided, resume_sided};
ghost use Rattle.c_walk.specs.Rows.{either_told};

// The start.
#[unsafe(no_mangle)]
pub extern "C" fn dezgula_raw_start_rights(
    p: usize,
    q: usize,
    coefs: &[i32],
    rights: &[i32],
    stack: &mut [u32],
    list: &mut [u32],
    second: &mut [u32],
    run: &mut [u64],
) -> u64
    ensures { (result, (stack.new, (list.new, (second.new, run.new)))) ≡
        start_sided p q coefs.now rights.now stack.old list.old second.old run.old }
{
    c_walk::rights::start(p, q, coefs, rights, stack, list, second, run)
}

// The continuing call.
#[unsafe(no_mangle)]
pub extern "C" fn dezgula_raw_resume_rights(
    p: usize,
    q: usize,
    coefs: &[i32],
    rights: &[i32],
    stack: &mut [u32],
    list: &mut [u32],
    second: &mut [u32],
    run: &mut [u64],
    budget: u64,
) -> u64
    ensures { (result, (stack.new, (list.new, (second.new, run.new)))) ≡
        resume_sided budget p q coefs.now rights.now stack.old list.old second.old run.old }
{
    c_walk::rights::resume(p, q, coefs, rights, stack, list, second, run, budget)
}

// Row n of the list at 0 or at 1, copied to the beginning of `out`.
#[unsafe(no_mangle)]
pub extern "C" fn dezgula_raw_row_of_either<'a>(
    list: &'a [u32],
    second: &'a [u32],
    at: usize,
    q: usize,
    found: usize,
    n: usize,
    out: &mut [u32],
) -> u64
    ensures { (result, out.new) ≡ either_told at q list.now second.now found n out.old }
{
    c_walk::rows::tell_either(list, second, at, q, found, n, out)
}
