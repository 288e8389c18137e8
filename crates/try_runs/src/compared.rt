// Document 01's "Runs to compare", and the example of document 02's job 4, each started and then taken on in one call. It prints what each run came to. The
// vectors have the same runs with pauses, and with tables and a record of any content before them.
use calls::{Answer, Outcome, Record, Solutions, Steps};
use std::io;
use try_support::print::Told;
use try_support::{print, tables};

// A budget and a number of list entries that no run here uses up.
const ALL: u64 = 18446744073709551615;

const AMPLE: usize = 40;

pub fn all(rt: &impl Print) -> io::Result<()> {
    run(rt, "0", 1, 1, &[0], AMPLE, ALL)?;
    run(rt, "5", 1, 1, &[5], AMPLE, ALL)?;
    run(rt, "2 -3", 1, 2, &[2, -3], AMPLE, ALL)?;
    run(rt, "1 1 -1", 1, 3, &[1, 1, -1], AMPLE, ALL)?;
    run(rt, "0 0 0", 1, 3, &[0, 0, 0], AMPLE, ALL)?;
    run(rt, "1 -1 and 1 1", 2, 2, &[1, -1, 1, 1], AMPLE, ALL)?;
    map(rt, "-1 1 2 -3 and -1 3 -2 -1", AMPLE, ALL)?;
    map(rt, "the same, budget 7", AMPLE, 7)?;
    map(rt, "the same, capacity 1", 4, ALL)?;
    run(rt, "10000 -10000", 1, 2, &[10000, -10000], AMPLE, ALL)?;
    run(rt, "10001 -10000", 1, 2, &[10001, -10000], AMPLE, ALL)?;
    run(rt, "-1 1 2 -3", 1, 4, &[-1, 1, 2, -3], AMPLE, ALL)?;
    lower_runs(rt)
}

// The map of document 01's "The program".
fn map(rt: &impl Print, name: &str, entries: usize, budget: u64) -> io::Result<()> {
    let coefs = [-1, 1, 2, -3, -1, 3, -2, -1];
    run(rt, name, 2, 4, &coefs, entries, budget)
}

fn lower_runs(rt: &impl Print) -> io::Result<()> {
    let limit = 1000000;
    from(rt, "2 -3 from 0 0", 1, 2, &[2, -3], &[0, 0])?;
    from(rt, "1 -1 from 0 2", 1, 2, &[1, -1], &[0, 2])?;
    from(rt, "1 -1 from 3 3", 1, 2, &[1, -1], &[3, 3])?;
    let past = [limit, 999999];
    from(rt, "2 -1 from 1000000 999999", 1, 2, &[2, -1], &past)?;
    from(rt, "1 -1 from 1000000 0", 1, 2, &[1, -1], &[limit, 0])?;
    let two = [2, -2, 1, 0, 0, 1];
    from(rt, "2 -2 1 and 0 0 1 from 0 0 1", 2, 3, &two, &[0, 0, 1])
}

// A run with a list table of `entries` numbers, started and then taken on in one call.
fn run(
    rt: &impl Print,
    name: &str,
    p: usize,
    q: usize,
    coefs: &[i32],
    entries: usize,
    budget: u64,
) -> io::Result<()> {
    let mut stack = [0u32; 20];
    let mut list = [0u32; 40];
    let lent = tables::first_mut(&mut list, entries);
    let o = in_one_call(p, q, coefs, &mut stack, lent, budget);
    report(rt, name, o, q, &list)
}

// The start and one continuing call.
fn in_one_call(
    p: usize,
    q: usize,
    coefs: &[i32],
    stack: &mut [u32],
    list: &mut [u32],
    budget: u64,
) -> Outcome {
    let limit = calls::COMPONENT_LIMIT;
    let o = starts::started(p, q, coefs, stack, list, unused());
    match o.answer {
        Answer::Started => walk::resumed(p, q, coefs, stack, list, o.run, budget, limit),
        _ => o,
    }
}

fn unused() -> Record {
    Record::new(0, Solutions(0), Steps(0))
}

// A run from a lower bound, and what its plain walk came to.
fn from(
    rt: &impl Print,
    name: &str,
    p: usize,
    q: usize,
    coefs: &[i32],
    lower: &[u32],
) -> io::Result<()> {
    let mut stack = [0u32; 20];
    let mut list = [0u32; 40];
    let mut second = [0u32; 40];
    let o = from_in_one_call(p, q, coefs, lower, &mut stack, &mut list, &mut second);
    report(rt, name, o, q, &list)?;
    let steps = o.run.steps2.0;
    print!(rt; "  its plain walk: steps {steps}")?;
    rows(rt, o.run.found2, q, &second)
}

fn from_in_one_call(
    p: usize,
    q: usize,
    coefs: &[i32],
    lower: &[u32],
    stack: &mut [u32],
    list: &mut [u32],
    second: &mut [u32],
) -> Outcome {
    let limit = calls::COMPONENT_LIMIT;
    let r = unused();
    let o = starts::started_from(p, q, coefs, lower, stack, list, second, r, limit);
    let r = o.run;
    walk::resumed_from(p, q, coefs, lower, stack, list, second, r, ALL, limit)
}

// A line for a run: its name, the answer, the record and the rows found.
fn report(rt: &impl Print, name: &str, o: Outcome, q: usize, list: &[u32; 40]) -> io::Result<()> {
    let answer = Told(o.answer);
    let steps = o.run.steps.0;
    let height = o.run.height;
    print!(rt; "{name}: {answer}, steps {steps}, height {height}")?;
    rows(rt, o.run.found, q, list)
}

// The rest of a line: how many rows were found, and which.
fn rows(rt: &impl Print, found: Solutions, q: usize, list: &[u32; 40]) -> io::Result<()> {
    let n = found.0;
    print!(rt; ", found {n}:")?;
    print::rows(rt, tables::first(list, tables::place(n, q, 0)), q)?;
    println!(rt; "")
}
