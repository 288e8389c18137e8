// One turn of one run.
ghost use Rattle.std.specs.Prelude.{◌≡◌, ◌+◌, ◌≤◌, length};
ghost use Rattle.definitions.specs.Calls.{resume};
ghost use Rattle.definitions.specs.Input.{input_of};
ghost use Rattle.calls.specs.Paper.{outcome_of};
ghost use Rattle.dispatch.specs.Form.{input_for, own_state, placed};
ghost use Rattle.dispatch.specs.Cut.{Inside};

use crate::types::{Part, Share};
use calls::{Outcome, Record};

// A continuing call on a part of each table.
pub fn serve(
    p: usize,
    q: usize,
    coefs: &[i32],
    stack: &mut [u32],
    list: &mut [u32],
    a: Part,
    b: Part,
    r: Record,
    quantum: u64,
) -> Outcome
    requires size_in_bounds { a.start + a.size ≤ length stack.old }
    requires size_in_bounds_2 { b.start + b.size ≤ length list.old }
    ensures { outcome_of result stack.new list.new
        ≡ placed a b stack.old list.old
        (resume quantum (input_of p q coefs.now) (own_state a b stack.old list.old r)) }
{
    let from = a.start;
    let to = a.start + a.size;
    let first = b.start;
    let last = b.start + b.size;
    walk::resumed(
        p,
        q,
        coefs,
        &mut stack[from..to],
        &mut list[first..last],
        r,
        quantum,
        calls::COMPONENT_LIMIT,
    )
}

// A part that has what the part a has of a slice of so many numbers: nothing, where a leaves the slice.
pub fn inside(a: Part, len: usize) -> Part
    ensures { Inside a len result }
{
    let start = a.start;
    if len < start {
        return Part {
            start: len,
            size: 0,
        };
    }
    if len - start < a.size {
        return Part { start, size: 0 };
    }
    a
}

// A turn of a run: its coefficients are those of its part of the slice.
pub fn serve_run(
    share: Share,
    coefs: &[i32],
    stack: &mut [u32],
    list: &mut [u32],
    r: Record,
    quantum: u64,
) -> Outcome
    requires size_in_bounds { share.stack.start + share.stack.size ≤ length stack.old }
    requires size_in_bounds_2 { share.list.start + share.list.size ≤ length list.old }
    ensures { outcome_of result stack.new list.new
        ≡ placed share.stack share.list stack.old list.old
        (resume quantum (input_for share coefs.now) (own_state share.stack share.list stack.old list.old r)) }
{
    let a = share.stack;
    let b = share.list;
    let c = inside(share.coefs, coefs.len());
    let from = c.start;
    let to = c.start + c.size;
    serve(
        share.p,
        share.q,
        &coefs[from..to],
        stack,
        list,
        a,
        b,
        r,
        quantum,
    )
}
