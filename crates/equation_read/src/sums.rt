// Sums, terms and bracketed sums, read by functions that call each other. A text is passed over while its numbers are added to `totals`, times
// `times`. The depth falls with each bracket, and the text that is left with each term.
ghost use Rattle.std.specs.Prelude.{◌≡◌, drop};
ghost use Rattle.equation_spec.specs.Reader.{read_factor, read_term, read_sum, read_bracket};
ghost use Rattle.equation_read.specs.Totals.{Ready, sum_collected, term_collected, factor_collected, bracket_collected};
ghost use Rattle.equation_read.specs.After.{collected_by, Passed};

use crate::bytes::{after_sign, is_minus, is_sign, read_index, skip, stands};
use crate::totals::{add_at, out_of_range, scaled, signed, within};
use texts::number::{is_digit, read_natural};

// The place after what was read, and whether the multipliers around a bracket exceed the limit.
#[derive(Clone, Copy)]
pub struct After {
    pub next: usize,
    pub exceeds: bool,
}

// The sum at place `at`, of brackets at most `depth` deep.
#[cycle(read_bracket_read_factor_read_sum_read_term)]
pub fn read_sum(
    text: &[u8],
    at: usize,
    q: usize,
    depth: usize,
    times: i64,
    totals: &mut [i64; 17],
) -> Option<After>
    requires { Ready 10000 text.now at q times totals.old }
    ensures read { collected_by text.now result totals.new
        ≡ sum_collected times totals.old (read_sum (read_bracket q depth) q (drop at text.now)) }
    ensures passed { Passed text.now at result totals.new }
{
    let mut next = after_sign(text, at);
    let mut minus = is_minus(text, at);
    let mut exceeds = false;
    loop {
        let term = read_term(text, next, q, depth, signed(minus, times), totals)?;
        exceeds |= term.exceeds;
        let sign = skip(text, term.next);
        if !is_sign(text, sign) {
            return Some(After {
                next: term.next,
                exceeds,
            });
        }
        minus = is_minus(text, sign);
        next = after_sign(text, sign);
    }
}

// The term at place `at`.
#[cycle(read_bracket_read_factor_read_sum_read_term)]
fn read_term(
    text: &[u8],
    at: usize,
    q: usize,
    depth: usize,
    times: i64,
    totals: &mut [i64; 17],
) -> Option<After>
    requires { Ready 10000 text.now at q times totals.old }
    ensures read { collected_by text.now result totals.new
        ≡ term_collected times totals.old (read_term (read_bracket q depth) q (drop at text.now)) }
    ensures passed { Passed text.now at result totals.new }
{
    if text.len() <= at {
        return None;
    }
    if !is_digit(text[at]) {
        return read_factor(text, at, q, depth, times, totals);
    }
    let number = read_natural(text, at, 5)?;
    let star = skip(text, number.next);
    let product = scaled(times, number.value);
    if stands(text, star, b'*') {
        return read_factor(text, skip(text, star + 1), q, depth, product, totals);
    }
    add_at(totals, 0, product);
    Some(After {
        next: number.next,
        exceeds: false,
    })
}

// The unknown or the bracketed sum at place `at`.
#[cycle(read_bracket_read_factor_read_sum_read_term)]
fn read_factor(
    text: &[u8],
    at: usize,
    q: usize,
    depth: usize,
    times: i64,
    totals: &mut [i64; 17],
) -> Option<After>
    requires { Ready 1000000000 text.now at q times totals.old }
    ensures read { collected_by text.now result totals.new
        ≡ factor_collected times totals.old (read_factor (read_bracket q depth) q (drop at text.now)) }
    ensures passed { Passed text.now at result totals.new }
{
    if stands(text, at, b'(') {
        return read_bracket(text, at + 1, q, depth, times, totals);
    }
    if !stands(text, at, b'x') {
        return None;
    }
    let index = read_index(text, at + 1, q)?;
    add_at(totals, index.value as usize, times);
    Some(After {
        next: index.next,
        exceeds: false,
    })
}

// The bracketed sum after "(" at place `at`.
#[cycle(read_bracket_read_factor_read_sum_read_term)]
fn read_bracket(
    text: &[u8],
    at: usize,
    q: usize,
    depth: usize,
    times: i64,
    totals: &mut [i64; 17],
) -> Option<After>
    requires { Ready 1000000000 text.now at q times totals.old }
    ensures read { collected_by text.now result totals.new
        ≡ bracket_collected times totals.old (read_bracket q depth (drop at text.now)) }
    ensures passed { Passed text.now at result totals.new }
{
    if depth == 0 {
        return None;
    }
    let sum = read_sum(text, skip(text, at), q, depth - 1, within(times), totals)?;
    let close = skip(text, sum.next);
    if !stands(text, close, b')') {
        return None;
    }
    Some(After {
        next: close + 1,
        exceeds: sum.exceeds | out_of_range(times),
    })
}
