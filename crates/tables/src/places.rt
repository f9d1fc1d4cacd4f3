// Why a place is refused, and the number of each reason.
ghost use Rattle.std.specs.Prelude.{◌≡◌};
ghost use Rattle.tables.specs.Refusals.{place_number, roster_refusal};

use crate::refusals::RosterRefusal;
use words::refusal::Refusal;

/// A place outside a table.
#[derive(Clone, Copy, PartialEq, Eq, Debug)]
pub enum PlaceRefusal {
    NoMember = 1,
    NoSlot = 2,
}

impl Refusal for PlaceRefusal {
    ghost code = { place_number };

    fn number(&self) -> u8 {
        *self as u8
    }
}

// By hand, since what `?` makes of a refusal is read from this member.
impl From<PlaceRefusal> for RosterRefusal {
    ghost from_gives = { λ place refusal. refusal ≡ roster_refusal place };

    fn from(place: PlaceRefusal) -> RosterRefusal {
        match place {
            PlaceRefusal::NoMember => RosterRefusal::NoMember,
            PlaceRefusal::NoSlot => RosterRefusal::NoSlot,
        }
    }
}
