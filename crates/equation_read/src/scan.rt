// The place of a fault in a text, found byte by byte with a count of the open brackets, however deep.
ghost use Rattle.std.specs.Prelude.{◌≡◌, ◌≤◌, ◌+◌, ◌*◌, true, length};
ghost use Rattle.texts.specs.Reading.{is_digit, digit};
ghost use Rattle.equation_spec.specs.Scan.{onward as onward_step, factor_begins, term_begins, sum_begins, after_digits, after_factor};
ghost use Rattle.equation_spec.specs.Scan.{indexed as indexed_step, step as next_step, in_number, final, place as fault_place};
ghost use Rattle.equation_read.specs.Phases.{step_of, phase_of, FaultAt};

use texts::number::is_digit;

// What stands before the next byte; specs/Phases.antt has the phase of each case.
#[derive(Clone, Copy)]
pub enum Phase {
    Nothing,
    SumDue,
    TermDue,
    FactorDue,
    IndexDue,
    InNumber(usize),
    AfterNumber,
    InIndex(usize),
    AfterBracket,
    AfterTerm,
}

// How far a text has come: what stands before the next byte, the brackets that are open, and whether "=" has been passed.
#[derive(Clone, Copy)]
pub struct Scan {
    pub phase: Phase,
    pub opened: usize,
    pub right: bool,
}

impl Scan {
    fn to(self, phase: Phase) -> Scan
        ensures { result ≡ record { phase = phase; opened = self.opened; right = self.right } }
    {
        Scan {
            phase,
            opened: self.opened,
            right: self.right,
        }
    }
}

// The place of the first byte up to which `text` begins nothing allowed, from 1, or one past the end; none if it is in the grammar.
#[tactic(auto, unfolding(equation_spec::specs::Scan::place))]
pub fn place(text: &[u8], q: usize) -> Option<usize>
    requires text_len_bound { length text.now ≤ 4096 }
    requires q_bound { q ≤ 16 }
    ensures { FaultAt result (fault_place q text.now) }
{
    let mut at = Scan {
        phase: Phase::Nothing,
        opened: 0,
        right: false,
    };
    for (i, byte) in text.iter().enumerate() {
        let Some(next) = advance(q, *byte, at) else {
            return Some(i + 1);
        };
        at = next;
    }
    if is_final(at) {
        None
    } else {
        Some(text.len() + 1)
    }
}

fn is_final(at: Scan) -> bool
    ensures { result ≡ final (phase_of at.phase) at.opened at.right }
{
    match at.phase {
        Phase::InNumber(_) | Phase::InIndex(_) | Phase::AfterBracket => at.opened == 0 && at.right,
        _ => false,
    }
}

#[tactic(auto, unfolding(equation_spec::specs::Scan::step))]
fn advance(q: usize, byte: u8, at: Scan) -> Option<Scan>
    requires { (q ≤ 16) × (at.opened ≤ 4096) }
    ensures { step_of result ≡ next_step q byte (phase_of at.phase) at.opened at.right }
{
    match at.phase {
        Phase::Nothing => sum_begins(byte, at),
        Phase::SumDue | Phase::TermDue | Phase::FactorDue if byte == b' ' => Some(at),
        Phase::SumDue => sum_begins(byte, at),
        Phase::TermDue => term_begins(byte, at),
        Phase::FactorDue => factor_begins(byte, at),
        Phase::IndexDue if is_digit(byte) => indexed(q, 0, byte, at),
        Phase::IndexDue => None,
        Phase::InNumber(left) => in_number(byte, left, at),
        Phase::AfterNumber => after_digits(byte, at),
        Phase::InIndex(k) if is_digit(byte) => indexed(q, k, byte, at),
        Phase::InIndex(_) | Phase::AfterBracket | Phase::AfterTerm => after_factor(byte, at),
    }
}

// In a number that may have `left` digits more.
#[tactic(auto, unfolding(equation_spec::specs::Scan::step))]
fn in_number(byte: u8, left: usize, at: Scan) -> Option<Scan>
    ensures { step_of result ≡ next_step 0 byte (in_number left) at.opened at.right }
{
    if 0 < left && is_digit(byte) {
        return Some(at.to(Phase::InNumber(left - 1)));
    }
    after_digits(byte, at)
}

// One more digit of the number `k` of an unknown.
fn indexed(q: usize, k: usize, byte: u8, at: Scan) -> Option<Scan>
    requires { (q ≤ 16) × (is_digit byte ≡ true) }
    ensures { step_of result ≡ indexed_step q (k * 10 + digit byte) at.opened at.right }
{
    if 16 < k {
        return None;
    }
    let n = k * 10 + (byte - b'0') as usize;
    if n < 1 || q < n {
        return None;
    }
    Some(at.to(Phase::InIndex(n)))
}

// A sum begins.
#[tactic(auto, unfolding(equation_spec::specs::Scan::sum_begins))]
fn sum_begins(byte: u8, at: Scan) -> Option<Scan>
    requires { at.opened ≤ 4096 }
    ensures { step_of result ≡ sum_begins byte at.opened at.right }
{
    match byte {
        b'+' | b'-' => Some(at.to(Phase::TermDue)),
        _ => term_begins(byte, at),
    }
}

// A term begins.
#[tactic(auto, unfolding(equation_spec::specs::Scan::term_begins))]
fn term_begins(byte: u8, at: Scan) -> Option<Scan>
    requires { at.opened ≤ 4096 }
    ensures { step_of result ≡ term_begins byte at.opened at.right }
{
    if !is_digit(byte) {
        return factor_begins(byte, at);
    }
    let left = if byte == b'0' { 0 } else { 4 };
    Some(at.to(Phase::InNumber(left)))
}

// An unknown or a bracket begins.
#[tactic(auto, unfolding(equation_spec::specs::Scan::factor_begins))]
fn factor_begins(byte: u8, at: Scan) -> Option<Scan>
    requires { at.opened ≤ 4096 }
    ensures { step_of result ≡ factor_begins byte at.opened at.right }
{
    match byte {
        b'x' => Some(at.to(Phase::IndexDue)),
        b'(' => Some(Scan {
            phase: Phase::SumDue,
            opened: at.opened + 1,
            right: at.right,
        }),
        _ => None,
    }
}

// After a number.
#[tactic(auto, unfolding(equation_spec::specs::Scan::after_digits))]
fn after_digits(byte: u8, at: Scan) -> Option<Scan>
    ensures { step_of result ≡ after_digits byte at.opened at.right }
{
    match byte {
        b' ' => Some(at.to(Phase::AfterNumber)),
        b'*' => Some(at.to(Phase::FactorDue)),
        _ => onward(byte, at),
    }
}

// After an unknown or a bracket.
#[tactic(auto, unfolding(equation_spec::specs::Scan::after_factor))]
fn after_factor(byte: u8, at: Scan) -> Option<Scan>
    ensures { step_of result ≡ after_factor byte at.opened at.right }
{
    match byte {
        b' ' => Some(at.to(Phase::AfterTerm)),
        _ => onward(byte, at),
    }
}

// What follows a term.
#[tactic(auto, unfolding(equation_spec::specs::Scan::onward))]
fn onward(byte: u8, at: Scan) -> Option<Scan>
    ensures { step_of result ≡ onward_step byte at.opened at.right }
{
    match byte {
        b'+' | b'-' => Some(at.to(Phase::TermDue)),
        b')' if 0 < at.opened => Some(Scan {
            phase: Phase::AfterBracket,
            opened: at.opened - 1,
            right: at.right,
        }),
        b'=' if at.opened == 0 && !at.right => Some(Scan {
            phase: Phase::SumDue,
            opened: 0,
            right: true,
        }),
        _ => None,
    }
}
