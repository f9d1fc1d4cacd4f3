// What every trial counts: how often what was given differs from what a plain model has.
use std::fmt;

/// A count of differences.
#[derive(Clone, Copy, Default)]
pub struct Mismatches {
    count: u32,
}

impl Mismatches {
    /// Counts a difference where the two do not fit.
    pub fn expect(&mut self, fits: bool) {
        if !fits {
            self.count = self.count.saturating_add(1);
        }
    }
}

impl fmt::Display for Mismatches {
    fn fmt<W: fmt::Write>(&self, f: &mut fmt::Formatter<W>) -> fmt::Result {
        write!(f, "mismatches: {}", self.count)
    }
}
