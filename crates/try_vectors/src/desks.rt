// The kinds of call: each is made as its line has it, and held against what the line says must come of it.
use try_support::line::Line;

// The answer where what a call is to work on has no room: no line of a section has it.
const NO_ROOM: u64 = 255;

// Whether the call comes to its answer, its record and every entry of its tables. One whose map or list of generators has no room is not made.
pub fn agrees(kind: u8, l: &Line) -> bool {
    if !(l.coefs.fits() && l.generators.fits()) {
        return false;
    }
    let mut stack = l.stack;
    let mut list = l.list;
    let mut record = l.record;
    let answer = if l.stack.fits() && l.list.fits() && l.record.fits() {
        made(kind, l, stack.lend(), list.lend(), record.lend())
    } else {
        NO_ROOM
    };
    answer == l.answered[0] && stack.agrees() && list.agrees() && record.agrees()
}

// p, q, and of a continuing call a budget.
fn made(kind: u8, l: &Line, stack: &mut [u32], list: &mut [u32], record: &mut [u64]) -> u64 {
    let p = l.operands[0] as usize;
    let q = l.operands[1] as usize;
    let coefs = l.coefs.entries();
    let generators = l.generators.entries();
    if kind == b's' {
        return c_desk::start(p, q, coefs, generators, stack, list, record);
    }
    let budget = l.operands[2];
    c_desk::resume(p, q, coefs, generators, stack, list, record, budget)
}
