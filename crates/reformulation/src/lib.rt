// A map in the place of another (reformulation_spec): whether numbers show that both have the same minimal solutions, and the rows of the other map's list
// without its further unknowns. Answers are numbers, for callers in other languages: 128 and 129 besides the refusals (specs/Numbers.antt).
#![tactic(auto)]

ghost use Rattle.std.specs.Prelude.{◌≡◌};
ghost use Rattle.reformulation_spec.specs.Reformulation as paper;
ghost use Rattle.reformulation_spec.specs.Reformulation.{reformulation};
ghost use Rattle.reformulation.specs.Handed.{paper_of};
ghost use Rattle.reformulation.specs.Numbers.{project_told, shown_told};
ghost use Rattle.reformulation.specs.Given.{Given};

use multiples::Tables;

mod entries; // entries.rt: whether one map is another with further unknowns
mod given; // given.rt: what is refused before the numbers are looked at
mod multiples; // multiples.rt: whether rows follow from others
mod rows; // rows.rt: rows copied
mod small; // small.rt: whether numbers are within their limits

// What is handed over: the map has p equations in q unknowns, the extended one k further unknowns and equations, and the other map m equations; `onto` and
// `back` are the multiples between these two, and `above` those by which no further unknown is below 0.
// The public call takes it one by one, as dezgula exports it to C.
#[derive(Clone, Copy)]
struct Handed<'a> {
    p: usize,
    q: usize,
    k: usize,
    m: usize,
    coefs: &'a [i32],
    extended: &'a [i32],
    other: &'a [i32],
    onto: &'a [i64],
    back: &'a [i64],
    above: &'a [i64],
}

// Whether the numbers show it. Nothing lent is written.
pub fn reformulates(
    p: usize,
    q: usize,
    k: usize,
    m: usize,
    coefs: &[i32],
    extended: &[i32],
    other: &[i32],
    onto: &[i64],
    back: &[i64],
    above: &[i64],
) -> u64
    ensures { result ≡
        shown_told (paper.reformulates (reformulation p q k m coefs.now extended.now other.now onto.now
        back.now above.now)) }
{
    let handed = Handed {
        p,
        q,
        k,
        m,
        coefs,
        extended,
        other,
        onto,
        back,
        above,
    };
    match given::check(&handed) {
        Err(why) => calls::codes::refusal(why),
        Ok(()) => if shows(&handed) { 128 } else { 36 },
    }
}

// The same of numbers that are as many as they should be.
fn shows(r: &Handed) -> bool
    requires { Given (paper_of r.now) }
    ensures { result ≡ paper.shows (paper_of r.now) }
{
    let (unknowns, equations) = (r.q + r.k, r.p + r.k);
    let onto = Tables {
        w: unknowns,
        n: equations,
        by: r.onto,
        rows: r.other,
        table: r.extended,
    };
    let back = Tables {
        w: unknowns,
        n: r.m,
        by: r.back,
        rows: r.extended,
        table: r.other,
    };
    let above = Tables {
        w: unknowns,
        n: r.p,
        by: r.above,
        rows: r.extended,
        table: r.extended,
    };
    small::all(r)
        && entries::extends(r.p, r.q, r.k, r.coefs, r.extended)
        && multiples::all_follow(true, unknowns, r.m, 0, &onto)
        && multiples::all_follow(true, unknowns, equations, 0, &back)
        && multiples::all_follow(false, r.q, r.k, r.p, &above)
}

// The first q numbers of `found` rows of q + k numbers, one row behind the other from the beginning of `out`.
pub fn project(q: usize, k: usize, found: usize, rows: &[u32], out: &mut [u32]) -> u64
    ensures { (result, out.new) ≡ project_told q k found rows.now out.old }
{
    if !given::unknowns_fit(q, k) {
        return 2;
    }
    if rows.len() / (q + k) < found {
        return 6;
    }
    if out.len() / q < found {
        return 29;
    }
    rows::copy(q, k, found, rows, out);
    129
}
