// The line of a member's metres: more metres come first, and the lower number of two members with the same metres.
ghost use Rattle.boards.specs.Metres.{metres_order, metres_laws};
ghost use Rattle.std.proofs.Common.{rules};
ghost use Rattle.std.specs.Cmp.{partial_order_from_own_ties};
ghost use Rattle.std.specs.Cmp.Rules.{comparing};
ghost use Rattle.std.specs.Ordering.{as_partial_cmp};

use crate::line::Line;
use std::cmp::Ordering;

/// The metres that a member has rowed.
#[derive(Clone, Copy, PartialEq, Eq, Debug)]
pub struct MetresLine {
    pub member: u8,
    pub metres: u32,
}

impl Ord for MetresLine {
    ghost cmp = { metres_order };

    ghost total = { Prim.search (comparing, rules) };

    ghost matches_partial_cmp = { Prim.search (comparing, rules) };

    ghost matches_eq = { Prim.search (comparing, rules) };

    fn cmp(&self, other: &MetresLine) -> Ordering {
        let by_metres = other.metres.cmp(&self.metres);
        by_metres.then(self.member.cmp(&other.member))
    }
}

impl PartialOrd for MetresLine {
    ghost partial_cmp = { as_partial_cmp metres_order };

    ghost laws = { partial_order_from_own_ties (Prim.search (comparing, rules)) (Prim.search (comparing, rules)) };

    fn partial_cmp(&self, other: &MetresLine) -> Option<Ordering> {
        Some(self.cmp(other))
    }
}

impl Line for MetresLine {
    ghost order = { metres_order };

    ghost lawful = { metres_laws };

    fn compare(&self, other: &MetresLine) -> Ordering {
        self.cmp(other)
    }
}
