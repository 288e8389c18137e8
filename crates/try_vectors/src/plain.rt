// The kinds of call: each is made as its line has it, and held against what the line says must come of it. A further kind is one more arm of `agrees`
// and one more function, which takes its operands and tables from the line and compares what comes of them.
use crate::answered;
use calls::{Outcome, Record, Solutions, Steps};
use single_listing::ListingRefusal;
use try_support::line::{Line, ROOM};
use try_support::tables::{first, first_mut};

// What stands in an output space before: a byte that no text has.
const BEFORE: u8 = 170;

// The kinds of call, by the letters of their lines.
pub const KINDS: [(&str, u8); 6] = [
    ("start", b's'),
    ("resume", b'r'),
    ("view", b'v'),
    ("begin", b'b'),
    ("go", b'g'),
    ("order", b'o'),
];

// Whether the call of a line comes to what the line says. One whose tables have no room is not made.
pub fn agrees(kind: u8, l: &Line) -> bool {
    let fits = l.coefs.fits() && l.tuple.fits() && l.stack.fits() && l.list.fits();
    fits && match kind {
        b's' | b'r' | b'b' | b'g' => run(kind, l),
        b'o' => order(l),
        b'v' => view(l),
        _ => false,
    }
}

// A start or a continuing call: its answer, its record and every entry of its tables.
fn run(kind: u8, l: &Line) -> bool {
    let mut stack = l.stack;
    let mut list = l.list;
    let o = made(kind, l, stack.lend(), list.lend());
    answered::answers(l, o.answer)
        && answered::counts(l, 0, o.run)
        && stack.agrees()
        && list.agrees()
}

// p, q and a budget.
fn made(kind: u8, l: &Line, stack: &mut [u32], list: &mut [u32]) -> Outcome {
    let x = l.record.before;
    let p = l.operands[0] as usize;
    let q = l.operands[1] as usize;
    let budget = l.operands[2];
    let coefs = l.coefs.entries();
    let r = Record::new(x[0] as usize, Solutions(x[1] as usize), Steps(x[2]));
    match kind {
        b's' => starts::started(p, q, coefs, stack, list, r),
        b'b' => single::started(p, q, coefs, stack, list, r),
        b'g' => single::resumed(p, q, coefs, stack, list, r, budget),
        _ => walk::resumed(p, q, coefs, stack, list, r, budget, calls::COMPONENT_LIMIT),
    }
}

// q, the solutions found and the row asked for; the tuple is the row that is to be shown.
fn view(l: &Line) -> bool {
    let q = l.operands[0] as usize;
    let found = Solutions(l.operands[1] as usize);
    let n = l.operands[2] as usize;
    reader::row_of(l.list.entries(), q, found, n) == l.tuple.entries()
        && match reader::reader_answer(q) {
            Ok(()) => l.answer == Some(b'Y'),
            Err(why) => answered::refuses(l, why),
        }
}

// The listing of a single-file map: p, q, the solutions found and the length of the space; the tuple is the text that is to be written.
fn order(l: &Line) -> bool {
    let mut out = [BEFORE; ROOM];
    let a = single_listing::listed(
        l.operands[0] as usize,
        l.operands[1] as usize,
        l.coefs.entries(),
        l.list.entries(),
        Solutions(l.operands[2] as usize),
        first_mut(&mut out, (l.operands[3] % 321) as usize),
    );
    says(l, a) && holds_text(&out, l.tuple.entries())
}

fn says(l: &Line, a: Result<usize, ListingRefusal>) -> bool {
    match a {
        Ok(n) => l.answer == Some(b'W') && n as u64 == l.answered[0],
        Err(why) => {
            l.answer == Some(b'R')
                && single_listing::number_of(why) == l.answered[0]
                && single_listing::value_of(why) as u64 == l.answered[1]
        }
    }
}

// Whether a space holds a text, and what stood there before past it.
fn holds_text(out: &[u8; ROOM], text: &[u32]) -> bool {
    out.iter().enumerate().all(|(i, b)| {
        u32::from(*b) == text.get(i).copied().unwrap_or(u32::from(BEFORE))
    })
}
