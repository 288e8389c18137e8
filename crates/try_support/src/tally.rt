// What was counted.
use crate::{print, up};
use std::io;

// Lines read; and calls tried and agreed, all and by the letter of their kind.
#[derive(Clone, Copy)]
pub struct Tally {
    lines: u64,
    all: Count,
    by: [Count; 128],
}

// Calls tried, and those of them that agreed.
#[derive(Clone, Copy)]
struct Count {
    tried: u64,
    agreed: u64,
}

impl Count {
    fn add(&mut self, agreed: bool) {
        self.tried = up(self.tried, true);
        self.agreed = up(self.agreed, agreed);
    }
}

impl Tally {
    pub fn new() -> Tally {
        let none = Count {
            tried: 0,
            agreed: 0,
        };
        Tally {
            lines: 0,
            all: none,
            by: [none; 128],
        }
    }

    // One more line.
    pub fn line(&mut self) {
        self.lines = up(self.lines, true);
    }

    // The call of the line. One that does not agree is named, where fewer than 20 did not before.
    pub fn call(&mut self, rt: &impl Print, kind: u8, agreed: bool) -> io::Result<()> {
        let others = self.all.tried.wrapping_sub(self.all.agreed);
        self.all.add(agreed);
        self.by[(kind % 128) as usize].add(agreed);
        if !agreed && others < 20 {
            print::line(rt, "does not agree: line", self.lines)?;
        }
        Ok(())
    }

    // All calls.
    pub fn report(&self, rt: &impl Print) -> io::Result<()> {
        line(rt, "calls", self.all)
    }

    // The calls of each kind, under its name.
    pub fn report_kinds(&self, rt: &impl Print, kinds: &[(&str, u8)]) -> io::Result<()> {
        for (name, kind) in kinds {
            line(rt, name, self.by[(*kind % 128) as usize])?;
        }
        Ok(())
    }
}

fn line(rt: &impl Print, name: &str, c: Count) -> io::Result<()> {
    let tried = c.tried;
    let agreed = c.agreed;
    println!(rt; "{name} {tried} agreed {agreed}")
}
