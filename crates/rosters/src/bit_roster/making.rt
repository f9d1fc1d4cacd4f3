// A bit roster starts with nothing marked.
ghost use Rattle.std.specs.Prelude.{◌≡◌, ◌*◌};
ghost use Rattle.rosters.specs.Rosters.{bit_sheet};
ghost use Rattle.tables.specs.Sheet.{sheet, unmarked};

use super::BitRoster;
use tables::size::Size;

impl BitRoster {
    /// A roster of that size with no pair marked and a free place for each.
    pub fn new(size: Size) -> BitRoster
        ensures { bit_sheet result ≡ sheet (unmarked size.members size.slots) (size.members * size.slots) }
    {
        let rows = [0; 64];
        let columns = [0; 64];
        let free = u16::from(size.members()) * u16::from(size.slots());
        BitRoster {
            size,
            rows,
            columns,
            free,
        }
    }
}
