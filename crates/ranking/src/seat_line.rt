// The seat line: the crew with more seats comes first; ties go as in the crew line.
ghost use Rattle.std.specs.Prelude.{◌≡◌};
ghost use Rattle.ranking.specs.Orders.{seats_of, seat_order};
ghost use Rattle.ranking.specs.CrewOrders.{seat_total, seat_same};

use crate::crew_line::compare_crews;
use crate::ranked::{Ranked, Ranking};
use std::cmp::Ordering;
use tables::crew::Crew;

/// The order by seats.
#[derive(Clone, Copy)]
pub struct SeatOrder;

/// A crew as a line by its seats.
pub type SeatLine = Ranked<SeatOrder>;

/// The seats of a crew: its members times its slots.
pub fn seats(crew: &Crew) -> u32
    ensures { result ≡ seats_of crew.now }
{
    crew.members().count_ones() * crew.slots().count_ones()
}

impl Ranking for SeatOrder {
    const NAME: &'static str = "SeatLine";

    ghost order = { seat_order };

    ghost total = { seat_total };

    ghost same = { seat_same };

    fn compare(a: &Crew, b: &Crew) -> Ordering {
        seats(b).cmp(&seats(a)).then(compare_crews(a, b))
    }
}
