// The crew line: a crew in crew order; lines with equal members go by their slots.
ghost use Rattle.std.specs.Prelude.{◌≡◌};
ghost use Rattle.ranking.specs.Orders.{crew_order};
ghost use Rattle.ranking.specs.CrewOrders.{crew_total, crew_same};

use crate::ranked::{Ranked, Ranking};
use std::cmp::Ordering;
use tables::crew::Crew;
use words::order::compare;

/// Crew order.
#[derive(Clone, Copy)]
pub struct CrewOrder;

/// A crew as a line in crew order.
pub type CrewLine = Ranked<CrewOrder>;

/// How crew `a` stands to crew `b`: by the member words, and by the slot words where these are equal.
pub fn compare_crews(a: &Crew, b: &Crew) -> Ordering
    ensures { result ≡ crew_order a.now b.now }
{
    compare(a.members(), b.members()).then(compare(a.slots(), b.slots()))
}

impl Ranking for CrewOrder {
    const NAME: &'static str = "CrewLine";

    ghost order = { crew_order };

    ghost total = { crew_total };

    ghost same = { crew_same };

    fn compare(a: &Crew, b: &Crew) -> Ordering {
        compare_crews(a, b)
    }
}
