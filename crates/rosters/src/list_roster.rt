// The list roster: a number of places that is chosen once, each for the code of one marked pair.
ghost use Rattle.std.specs.Prelude.{◌+◌, ◌≤◌};
ghost use Rattle.rosters.specs.Coded.{Ascending, Vacant, PairsOf};

use crate::list_roster::sorted::Codes;
use tables::size::Size;

mod making;
pub mod roster;
mod sorted;
pub mod table;

/// A roster with a place for each of a number of pairs, at most 256.
#[derive(Drop)]
pub struct ListRoster {
    size: Size,
    codes: Codes,
    // how many places hold a code
    used: u16,
    // how many more pairs can be marked
    free: u16,
    ghost room: { used + free ≤ 256 },
    ghost ascending: { Ascending used codes.places },
    ghost vacant: { Vacant used codes.places },
    ghost pairs: { PairsOf size.members size.slots used codes.places },
}
