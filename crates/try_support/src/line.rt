// A line of vectors, put together word by word. The first word names the kind of call, and its letter is the line's kind; the numbers after it are the
// operands. A word in capitals is the answer. Each other word says by its letter which table the numbers after it belong to, and by digits, as in
// `s4`, from which entry on: with digits they are what stands there after the call, and without both what stood before and what stands after.
use crate::tables;

// How many entries a table of a line may have.
pub const ROOM: usize = 320;

// How many coefficients it may have, and how many words its record.
pub const COEFFICIENTS: usize = 160;

pub const RECORD: usize = 80;

// A word so far: its letter, its sign, whether it has digits, and their number.
#[derive(Clone, Copy)]
pub struct Word {
    letter: Option<u8>,
    minus: bool,
    digits: bool,
    number: u64,
}

impl Word {
    pub fn new() -> Word {
        Word {
            letter: None,
            minus: false,
            digits: false,
            number: 0,
        }
    }

    // One more byte of the word.
    pub fn push(&mut self, b: u8) {
        match b {
            b'-' => self.minus = true,
            b'0'..=b'9' => {
                self.digits = true;
                let digit = u64::from(b - b'0');
                // ten times what is left is a u64: a number that would be longer begins anew
                self.number = (self.number % 1844674407370955162 * 10).wrapping_add(digit);
            }
            _ => self.letter = self.letter.or(Some(b)),
        }
    }
}

impl From<Word> for u64 {
    fn from(w: Word) -> u64 {
        w.number
    }
}

impl From<Word> for u32 {
    fn from(w: Word) -> u32 {
        (w.number & 0xffff_ffff) as u32
    }
}

// The lower 31 bits of the number, with the sign of the word: -1 - x is what the bits of x are when each is turned over.
impl From<Word> for i32 {
    fn from(w: Word) -> i32 {
        if w.minus {
            !((w.number.wrapping_sub(1) % 2147483648) as i32)
        } else {
            (w.number % 2147483648) as i32
        }
    }
}

// A table of a line: its entries before the call and after it, and how many there are. Entries past its room are dropped; their number still counts them.
#[derive(Clone, Copy)]
pub struct Table<T, const N: usize> {
    pub before: [T; N],
    pub after: [T; N],
    length: usize,
}

impl<T: Copy + PartialEq + From<Word>, const N: usize> Table<T, N> {
    fn new() -> Table<T, N> {
        let zero = T::from(Word::new());
        Table {
            before: [zero; N],
            after: [zero; N],
            length: 0,
        }
    }

    // Whether it has room for all its entries.
    pub fn fits(&self) -> bool {
        self.length <= N
    }

    // How many entries the line gives it.
    pub fn len(&self) -> usize {
        self.length
    }

    // Its entries before the call, as many as it has room for.
    pub fn entries(&self) -> &[T] {
        tables::first(&self.before, self.length)
    }

    // The same, for a call to change.
    pub fn lend(&mut self) -> &mut [T] {
        let length = self.length;
        let before = &mut self.before;
        tables::first_mut(&mut before[..], length)
    }

    // Whether a call on what was lent left the table as the line says.
    pub fn agrees(&self) -> bool {
        self.before == self.after
    }

    // The next number of the table.
    fn put(&mut self, at: usize, w: Word, after: bool) {
        let x = T::from(w);
        tables::put(&mut self.after, at, x);
        if !after {
            tables::put(&mut self.before, at, x);
            self.length = at.wrapping_add(1);
        }
    }
}

// Where the next number belongs: to the operands of the call, to the numbers of its answer, or to the table of a letter.
#[derive(Clone, Copy)]
enum Part {
    Operands,
    Answered,
    Table(u8),
}

// What a line has said so far.
#[derive(Clone, Copy)]
pub struct Line {
    pub kind: Option<u8>,
    pub operands: [u64; 8],
    pub answer: Option<u8>,
    pub answered: [u64; 8],
    pub coefs: Table<i32, COEFFICIENTS>,
    pub list: Table<u32, ROOM>,
    pub tuple: Table<u32, ROOM>,
    pub generators: Table<u32, ROOM>,
    pub stack: Table<u32, ROOM>,
    pub rights: Table<i32, COEFFICIENTS>,
    pub second: Table<u32, ROOM>,
    pub record: Table<u64, RECORD>,
    pub shares: Table<u64, RECORD>,
    pub equations: Table<i32, COEFFICIENTS>,
    // where the next number belongs, its place there, and whether it stands there only after the call
    part: Part,
    at: usize,
    after: bool,
}

impl Line {
    pub fn new() -> Line {
        Line {
            kind: None,
            operands: [0; 8],
            answer: None,
            answered: [0; 8],
            coefs: Table::new(),
            list: Table::new(),
            tuple: Table::new(),
            generators: Table::new(),
            stack: Table::new(),
            rights: Table::new(),
            second: Table::new(),
            record: Table::new(),
            shares: Table::new(),
            equations: Table::new(),
            part: Part::Operands,
            at: 0,
            after: false,
        }
    }

    // One more word, if it is one.
    pub fn push(&mut self, w: Word) {
        match w.letter {
            Some(letter) => self.name(letter, w),
            None => {
                if w.digits {
                    self.enter(w);
                }
            }
        }
    }

    // A word that says what the next numbers are.
    fn name(&mut self, letter: u8, w: Word) {
        self.at = (w.number % 65536) as usize;
        self.after = w.digits;
        if self.kind.is_none() {
            self.kind = Some(letter);
        } else if letter < b'a' {
            self.answer = Some(letter);
            self.part = Part::Answered;
        } else {
            self.part = Part::Table(letter);
        }
    }

    // The next number of a table.
    fn enter(&mut self, w: Word) {
        let at = self.at;
        let after = self.after;
        self.at = at.wrapping_add(1);
        match self.part {
            Part::Operands => tables::put(&mut self.operands, at, w.number),
            Part::Answered => tables::put(&mut self.answered, at, w.number),
            Part::Table(b'r') => self.record.put(at, w, after),
            // of h, c, b, t and g no line says what stands there after the call
            Part::Table(b'h') => self.shares.put(at, w, false),
            Part::Table(b'c') => self.coefs.put(at, w, false),
            Part::Table(b'e') => self.equations.put(at, w, after),
            Part::Table(b'b') => self.rights.put(at, w, false),
            Part::Table(b't') => self.tuple.put(at, w, false),
            Part::Table(b'g') => self.generators.put(at, w, false),
            Part::Table(b's') => self.stack.put(at, w, after),
            Part::Table(b'l') => self.list.put(at, w, after),
            Part::Table(b'n') => self.second.put(at, w, after),
            Part::Table(_) => {}
        }
    }
}
