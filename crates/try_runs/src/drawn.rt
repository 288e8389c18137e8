// Small systems drawn in a fixed order, each solved by the walk and by trying every tuple of a box, plainly, from a lower bound and with right sides.
// What the walk lists is held against the minimal solutions of the box. It prints how much was compared, and how many rows were wrong or missing.
use crate::drawn::compare::Rows;
use crate::drawn::systems::System;
use calls::{Answer, Outcome, Record, Solutions, Steps};
use std::io;
use try_support::{print, tables, up};

mod boxes; // boxes.rt: the minimal solutions of a box
mod compare; // compare.rt: a list held against a box
mod draws; // draws.rt: numbers drawn in a fixed order
mod systems; // systems.rt: a system, and what solves it

const SYSTEMS: u64 = 3000;

const BUDGET: u64 = 5000;

// Runs made and finished; rows listed in the box and outside it, and those of them that should not be listed; minimal solutions that the boxes of
// finished runs have, and those of them that are not listed.
#[derive(Clone, Copy)]
struct Tally {
    runs: u64,
    finished: u64,
    inside: u64,
    outside: u64,
    wrong: u64,
    minimal: u64,
    missing: u64,
}

// Which runs are made; and of runs from a lower bound or with right sides, which of their two lists is held against the box.
#[derive(Clone, Copy)]
enum Sort {
    Plain,
    From,
    FromSecond,
    First,
    Second,
}

pub fn all(rt: &impl Print) -> io::Result<()> {
    print::line(rt, "systems", SYSTEMS)?;
    runs(rt, "plain", Sort::Plain)?;
    runs(rt, "from a lower bound: the first list", Sort::From)?;
    runs(rt, "from a lower bound: the second list", Sort::FromSecond)?;
    runs(rt, "with right sides: the first list", Sort::First)?;
    runs(rt, "with right sides: the second list", Sort::Second)
}

// A run of each system, and what they came to.
fn runs(rt: &impl Print, name: &str, sort: Sort) -> io::Result<()> {
    let mut t = Tally {
        runs: 0,
        finished: 0,
        inside: 0,
        outside: 0,
        wrong: 0,
        minimal: 0,
        missing: 0,
    };
    for n in 0..SYSTEMS {
        system(&mut t, n, sort);
    }
    println!(rt; "{name}")?;
    print::line(rt, "runs", t.runs)?;
    print::line(rt, "finished", t.finished)?;
    print::line(rt, "rows in the box", t.inside)?;
    print::line(rt, "rows outside the box", t.outside)?;
    print::line(rt, "rows that should not be listed", t.wrong)?;
    print::line(
        rt,
        "minimal solutions in the boxes of finished runs",
        t.minimal,
    )?;
    print::line(rt, "missing rows", t.missing)
}

// System n: 1 to 3 equations and 1 to 4 unknowns, with a lower bound of 0 to 3, and right sides of the coefficients' sizes.
fn system(t: &mut Tally, n: u64, sort: Sort) {
    let p = (1 + draws::number(n, 0) % 3) as usize;
    let q = (1 + draws::number(n, 1) % 4) as usize;
    let mut coefs = [0i32; 15];
    draw_coefficients(&mut coefs, n);
    let mut lower = [0u32; 4];
    draw_lower(&mut lower, n);
    let plain = System {
        p,
        q,
        coefs: tables::first(&coefs, tables::place(p, q, 0)),
        rights: &[],
        lower: None,
    };
    let raised = System {
        lower: Some(tables::first(&lower, q)),
        ..plain
    };
    let rights = [coefs[12], coefs[13], coefs[14]];
    // of the solutions with right sides zero may be one
    let met = System {
        rights: tables::first(&rights, p),
        lower: Some(&[]),
        ..plain
    };
    run(t, sort, plain, raised, met);
}

// A run of a system. Of one from a lower bound the first list is held against the solutions at or above the bound, the second one against those of the plain
// system; of one with right sides the first list against the solutions without them, the second one against those with them.
fn run(t: &mut Tally, sort: Sort, plain: System, raised: System, met: System) {
    let mut list = [0u32; 4096];
    let mut second = [0u32; 4096];
    match sort {
        Sort::Plain => {
            let o = walked(plain, &mut list);
            compared(t, plain, o.answer, &list, o.run.found);
        }
        Sort::From => {
            let o = walked_from(raised, &mut list, &mut second);
            compared(t, raised, o.answer, &list, o.run.found);
        }
        Sort::FromSecond => {
            let o = walked_from(raised, &mut list, &mut second);
            compared(t, plain, o.answer, &second, o.run.found2);
        }
        Sort::First => {
            let o = walked_capped(met, &mut list, &mut second);
            compared(t, plain, o.answer, &list, o.run.found);
        }
        Sort::Second => {
            let o = walked_capped(met, &mut list, &mut second);
            compared(t, met, o.answer, &second, o.run.found2);
        }
    }
}

// Coefficients of up to 1, 2, 3 or 6 in size.
fn draw_coefficients(coefs: &mut [i32; 15], n: u64) {
    let most = match draws::number(n, 2) % 4 {
        0 => 3,
        1 => 5,
        2 => 7,
        _ => 13,
    };
    for (i, c) in coefs.iter_mut().enumerate() {
        *c = draws::coefficient(draws::number(n, 16 + i as u64) % most);
    }
}

fn draw_lower(lower: &mut [u32; 4], n: u64) {
    for (i, x) in lower.iter_mut().enumerate() {
        *x = (draws::number(n, 8 + i as u64) % 4) as u32;
    }
}

fn unused() -> Record {
    Record::new(0, Solutions(0), Steps(0))
}

fn walked(s: System, list: &mut [u32]) -> Outcome {
    let mut stack = [0u32; 20];
    let limit = calls::COMPONENT_LIMIT;
    let o = starts::started(s.p, s.q, s.coefs, &mut stack, list, unused());
    walk::resumed(s.p, s.q, s.coefs, &mut stack, list, o.run, BUDGET, limit)
}

fn walked_from(s: System, list: &mut [u32], second: &mut [u32]) -> Outcome {
    let mut stack = [0u32; 20];
    let limit = calls::COMPONENT_LIMIT;
    let (p, q, coefs) = (s.p, s.q, s.coefs);
    let lower = s.lower.unwrap_or(&[]);
    let r = unused();
    let o = starts::started_from(p, q, coefs, lower, &mut stack, list, second, r, limit);
    let r = o.run;
    walk::resumed_from(
        p, q, coefs, lower, &mut stack, list, second, r, BUDGET, limit,
    )
}

fn walked_capped(s: System, list: &mut [u32], second: &mut [u32]) -> Outcome {
    let mut stack = [0u32; 30];
    let limit = calls::COMPONENT_LIMIT;
    let (p, q, coefs) = (s.p, s.q, s.coefs);
    let r = unused();
    let o = starts::started_capped(p, q, coefs, s.rights, &mut stack, list, second, r);
    let r = o.run;
    walk::resumed_capped(
        p, q, coefs, s.rights, &mut stack, list, second, r, BUDGET, limit,
    )
}

// The list of a run held against the minimal solutions of a box.
fn compared(t: &mut Tally, s: System, answer: Answer, list: &[u32], found: Solutions) {
    let mut entries = [0u32; 4096];
    let minimal = Rows {
        count: boxes::minimal(s, &mut entries),
        list: &entries,
        q: s.q,
    };
    let rows = Rows {
        list,
        q: s.q,
        count: found.0,
    };
    let inside = rows.inside();
    t.runs = up(t.runs, true);
    t.inside = t.inside.wrapping_add(inside);
    t.outside = t
        .outside
        .wrapping_add((found.0 as u64).wrapping_sub(inside));
    t.wrong = t.wrong.wrapping_add(rows.wrong(s, minimal));
    if matches!(answer, Answer::Complete) {
        t.finished = up(t.finished, true);
        t.minimal = t.minimal.wrapping_add(minimal.count as u64);
        t.missing = t.missing.wrapping_add(rows.missing(minimal));
    }
}
