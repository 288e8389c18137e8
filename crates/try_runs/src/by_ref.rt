// The calls over a reference and the reader, as a caller uses them (lent.rt): the map of document 01's "The program" with a pause after 7 steps, a run from a
// lower bound, a map with right sides, and calls that are refused; and calls by value. It prints what each call answered and left.
use calls::{Answer, Outcome, Record, Solutions, Steps};
use reader::Which;
use std::io;
use try_support::print;
use try_support::print::Told;

mod lent; // lent.rt: each call with a record of its own

pub fn all(rt: &impl Print) -> io::Result<()> {
    map_in_two_calls(rt)?;
    from_a_lower_bound(rt)?;
    with_right_sides(rt)?;
    refused_calls(rt)?;
    by_value(rt)
}

fn map_in_two_calls(rt: &impl Print) -> io::Result<()> {
    let coefs = [-1, 1, 2, -3, -1, 3, -2, -1];
    let mut stack = [0u32; 20];
    let mut list = [0u32; 8];
    let r = told(
        rt,
        "start",
        lent::started(2, 4, &coefs, &mut stack, &mut list, unused()),
    )?;
    let r = told(
        rt,
        "7 steps",
        lent::resumed(2, 4, &coefs, &mut stack, &mut list, r, 7),
    )?;
    show(rt, &list, 4, r.found, 1)?;
    show(rt, &list, 4, r.found, 2)?;
    let r = told(
        rt,
        "all steps",
        lent::resumed(2, 4, &coefs, &mut stack, &mut list, r, 1000000),
    )?;
    show(rt, &list, 4, r.found, 1)?;
    show(rt, &list, 4, r.found, 2)?;
    show(rt, &list, 4, r.found, 3)
}

fn from_a_lower_bound(rt: &impl Print) -> io::Result<()> {
    let coefs = [1, -1];
    let lower = [0, 2];
    let mut stack = [0u32; 6];
    let mut list = [0u32; 8];
    let mut second = [0u32; 8];
    let r = told(
        rt,
        "start from 0 2",
        lent::started_from(
            1,
            2,
            &coefs,
            &lower,
            &mut stack,
            &mut list,
            &mut second,
            unused(),
        ),
    )?;
    let r = told(
        rt,
        "all steps",
        lent::resumed_from(
            1,
            2,
            &coefs,
            &lower,
            &mut stack,
            &mut list,
            &mut second,
            r,
            1000000,
        ),
    )?;
    show(rt, &list, 2, r.found, 1)?;
    show(rt, &second, 2, r.found2, 1)?;
    show(rt, &list, 17, r.found, 1)
}

// The equation 2 x - 3 y = 1, with a pause after 6 steps.
fn with_right_sides(rt: &impl Print) -> io::Result<()> {
    let coefs = [2, -3];
    let rights = [1];
    let mut stack = [0u32; 12];
    let mut list = [0u32; 8];
    let mut second = [0u32; 8];
    let r = told(
        rt,
        "start with right sides",
        lent::started_capped(
            1,
            2,
            &coefs,
            &rights,
            &mut stack,
            &mut list,
            &mut second,
            unused(),
        ),
    )?;
    let r = further(
        rt,
        &coefs,
        &rights,
        &mut stack,
        &mut list,
        &mut second,
        r,
        6,
    )?;
    show_both(rt, &list, &second, 2, r)?;
    let r = further(
        rt,
        &coefs,
        &rights,
        &mut stack,
        &mut list,
        &mut second,
        r,
        1000,
    )?;
    show_both(rt, &list, &second, 2, r)
}

// The continuing call of that equation's run.
fn further(
    rt: &impl Print,
    coefs: &[i32],
    rights: &[i32],
    stack: &mut [u32],
    list: &mut [u32],
    second: &mut [u32],
    r: Record,
    budget: u64,
) -> io::Result<Record> {
    told(
        rt,
        "further steps",
        lent::resumed_capped(1, 2, coefs, rights, stack, list, second, r, budget),
    )
}

fn refused_calls(rt: &impl Print) -> io::Result<()> {
    let coefs = [1, -10001];
    let mut stack = [0u32; 6];
    let mut list = [0u32; 8];
    let r = told(
        rt,
        "a coefficient out of range",
        lent::started(1, 2, &coefs, &mut stack, &mut list, unused()),
    )?;
    told(
        rt,
        "going on all the same",
        lent::resumed(1, 2, &coefs, &mut stack, &mut list, r, 1),
    )?;
    Ok(())
}

// The calls by value, as README.md has them.
fn by_value(rt: &impl Print) -> io::Result<()> {
    let coefs = [-1, 1, 2, -3, -1, 3, -2, -1];
    let mut stack = [0u32; 272];
    let mut list = [0u32; 8192];
    let s = starts::started(2, 4, &coefs, &mut stack, &mut list, unused());
    let Answer::Started = s.answer else {
        return Ok(());
    };
    let r = s.run;
    let o = walk::resumed(
        2,
        4,
        &coefs,
        &mut stack,
        &mut list,
        r,
        1000000,
        calls::COMPONENT_LIMIT,
    );
    let r = o.run;
    let row = reader::row_of(&list, 4, r.found, 1);
    print!(rt; "by value:")?;
    print::rows(rt, row, 4)?;
    println!(rt; "")
}

// A record out of order, so that one which a start has not set is refused.
fn unused() -> Record {
    Record::new(17, Solutions(0), Steps(0))
}

// Prints what a call answered, and the record that it left.
fn told(rt: &impl Print, name: &str, o: Outcome) -> io::Result<Record> {
    let answer = Told(o.answer);
    let height = o.run.height;
    let found = o.run.found.0;
    let steps = o.run.steps.0;
    println!(rt; "{name}: {answer}, height {height}, found {found}, steps {steps}")?;
    Ok(o.run)
}

// Prints a row as the reader shows it.
fn show(rt: &impl Print, list: &[u32], q: usize, found: Solutions, n: usize) -> io::Result<()> {
    shown(rt, lent::row(list, q, found, n), q, n)
}

// Prints the first row of the list at 0, and of the list at 1.
fn show_both<'a>(
    rt: &impl Print,
    list: &'a [u32],
    second: &'a [u32],
    q: usize,
    r: Record,
) -> io::Result<()> {
    let zero = reader::row_of_either(list, second, Which::Zero, q, r.found, 1);
    shown(rt, zero, q, 1)?;
    let one = reader::row_of_either(list, second, Which::One, q, r.found2, 1);
    shown(rt, one, q, 1)
}

// Prints row n of a list, which is empty where there is none.
fn shown(rt: &impl Print, row: &[u32], q: usize, n: usize) -> io::Result<()> {
    print!(rt; "    row {n}:")?;
    if row.is_empty() {
        print!(rt; " none")?;
    }
    print::rows(rt, row, q)?;
    println!(rt; "")
}
