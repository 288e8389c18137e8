// A list held against the minimal solutions of a box.
use crate::drawn::boxes;
use crate::drawn::systems::System;
use try_support::tables;

// The first `count` rows of a list of tuples.
#[derive(Clone, Copy)]
pub struct Rows<'a> {
    pub list: &'a [u32],
    pub q: usize,
    pub count: usize,
}

impl<'a> Rows<'a> {
    fn row(&self, i: usize) -> &'a [u32] {
        tables::row(self.list, i, self.q, self.q)
    }

    // How many of them lie in the box.
    pub fn inside(&self) -> u64 {
        (0..self.count)
            .filter(|i| boxes::holds(self.row(*i)))
            .count() as u64
    }

    // How many of them should not be listed as minimal solutions of a system, whose minimal solutions in the box are those of `minimal`.
    pub fn wrong(&self, s: System, minimal: Rows) -> u64 {
        let right = |i: usize| {
            let tuple = self.row(i);
            s.allows(tuple) && minimal.has_least(tuple) && self.alone(i)
        };
        (0..self.count).filter(|i| !right(*i)).count() as u64
    }

    // How many minimal solutions of the box are not listed.
    pub fn missing(&self, minimal: Rows) -> u64 {
        (0..minimal.count)
            .filter(|i| !self.has(minimal.row(*i)))
            .count() as u64
    }

    // Whether no solution of the box is below a tuple: one in the box is among its minimal solutions, and one outside has none of them below it.
    fn has_least(&self, tuple: &[u32]) -> bool {
        if boxes::holds(tuple) {
            return self.has(tuple);
        }
        !tables::any_at_or_below(self.list, self.count, self.q, tuple)
    }

    // Whether a tuple is one of the rows.
    fn has(&self, tuple: &[u32]) -> bool {
        (0..self.count).any(|i| tables::same(tuple, self.row(i)))
    }

    // Whether no other row is at or below row i.
    fn alone(&self, i: usize) -> bool {
        (0..self.count).all(|k| k == i || !tables::at_or_below(self.row(k), self.row(i)))
    }
}
