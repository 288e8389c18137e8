// Small systems, and what solves them: each image of a tuple is a sum made anew.
use try_support::tables;

// A system with its right sides, of which an equation without one has 0, and what bounds its solutions below: a tuple, or that they are not zero.
#[derive(Clone, Copy)]
pub struct System<'a> {
    pub p: usize,
    pub q: usize,
    pub coefs: &'a [i32],
    pub rights: &'a [i32],
    pub lower: Option<&'a [u32]>,
}

impl<'a> System<'a> {
    // The image of a tuple in equation i.
    fn image(&self, tuple: &[u32], i: usize) -> i64 {
        (0..self.q).fold(0i64, |sum, j| {
            let coefficient = i64::from(tables::at(self.coefs, tables::place(i, self.q, j)));
            sum.wrapping_add(coefficient.wrapping_mul(i64::from(tables::at(tuple, j))))
        })
    }

    // Whether the image of a tuple is what stands right.
    fn solved(&self, tuple: &[u32]) -> bool {
        (0..self.p).all(|i| self.image(tuple, i) == i64::from(tables::at(self.rights, i)))
    }

    // Whether a tuple may be listed: a solution at or above the lower bound, or not zero where there is none.
    pub fn allows(&self, tuple: &[u32]) -> bool {
        let above = match self.lower {
            Some(lower) => tables::at_or_below(lower, tuple),
            None => tuple.iter().any(|x| *x != 0),
        };
        above && self.solved(tuple)
    }
}
