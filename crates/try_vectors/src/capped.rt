// The kinds of call: each is made as its line has it, and held against what the line says must come of it.
use crate::answered;
use calls::{Outcome, Record, Refusal, RunKind, Solutions, Steps};
use try_support::line::Line;

// The kinds of call, by the letters of their lines.
pub const KINDS: [(&str, u8); 10] = [
    ("start", b's'),
    ("resume", b'r'),
    ("meet", b'm'),
    ("go", b'g'),
    ("from", b'f'),
    ("on", b'o'),
    ("begin", b'b'),
    ("learn", b'l'),
    ("above", b'a'),
    ("climb", b'c'),
];

// Whether the call comes to its answer, its record and every entry of its tables. One whose map, right sides or bound have no room is not made.
pub fn agrees(kind: u8, l: &Line) -> bool {
    if !(l.coefs.fits() && l.rights.fits() && l.tuple.fits()) {
        return false;
    }
    let mut stack = l.stack;
    let mut list = l.list;
    let mut second = l.second;
    let o = if l.stack.fits() && l.list.fits() && l.second.fits() {
        made(kind, l, stack.lend(), list.lend(), second.lend())
    } else {
        // what it is to work on has no room: an answer that no line of a section has
        calls::refused(Refusal::Column(0), record(l))
    };
    answered::answers(l, o.answer)
        && records(l, o.run)
        && stack.agrees()
        && list.agrees()
        && second.agrees()
}

fn record(l: &Line) -> Record {
    let x = l.record.before;
    Record::of(
        kind_of(x[0]),
        x[1] as usize,
        Solutions(x[2] as usize),
        Steps(x[3]),
        Solutions(x[4] as usize),
        Steps(x[5]),
        x[6],
    )
}

// The kind of run of a number.
fn kind_of(n: u64) -> RunKind {
    match n {
        0 => RunKind::Plain,
        1 => RunKind::Capped,
        2 => RunKind::LowerPlain,
        3 => RunKind::LowerAbove,
        _ => RunKind::Desks,
    }
}

// The operands are p, q, a budget and a limit; the tuple is the lower bound.
fn made(kind: u8, l: &Line, stack: &mut [u32], list: &mut [u32], second: &mut [u32]) -> Outcome {
    let p = l.operands[0] as usize;
    let q = l.operands[1] as usize;
    let budget = l.operands[2];
    let limit = (l.operands[3] % 4294967296) as u32;
    let coefs = l.coefs.entries();
    let rights = l.rights.entries();
    let lower = l.tuple.entries();
    let r = record(l);
    match kind {
        b's' => starts::started(p, q, coefs, stack, list, r),
        b'm' => starts::started_capped(p, q, coefs, rights, stack, list, second, r),
        b'f' => starts::started_from(p, q, coefs, lower, stack, list, second, r, limit),
        b'b' => seat::started(p, q, coefs, stack, list, r),
        b'a' => seat::started_from(p, q, coefs, lower, stack, list, second, r),
        b'g' => walk::resumed_capped(p, q, coefs, rights, stack, list, second, r, budget, limit),
        b'o' => walk::resumed_from(p, q, coefs, lower, stack, list, second, r, budget, limit),
        b'l' => seat::resumed(p, q, coefs, stack, list, r, budget),
        b'c' => seat::resumed_from(p, q, coefs, lower, stack, list, second, r, budget),
        _ => walk::resumed(p, q, coefs, stack, list, r, budget, limit),
    }
}

fn records(l: &Line, r: Record) -> bool {
    let others = [r.found2.0 as u64, r.steps2.0, r.deepest];
    let after = &l.record.after;
    calls::run_number(r.kind) == after[0]
        && answered::counts(l, 1, r)
        && after[4..7].starts_with(&others)
}
