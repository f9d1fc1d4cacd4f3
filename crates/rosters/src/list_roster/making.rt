// A list roster starts with nothing marked and all its places free.
ghost use Rattle.std.specs.Prelude.{◌≡◌, min};
ghost use Rattle.rosters.specs.Rosters.{list_sheet};
ghost use Rattle.tables.specs.Sheet.{sheet, unmarked};

use super::ListRoster;
use super::sorted::Codes;
use tables::size::Size;

impl ListRoster {
    /// A roster of that size with no pair marked and `places` free places, or 256 where `places` is above that.
    pub fn new(size: Size, places: u16) -> ListRoster
        ensures { list_sheet result ≡ sheet (unmarked size.members size.slots) (min places 256) }
    {
        let codes = Codes::new();
        let free = places.min(256);
        ListRoster {
            size,
            codes,
            used: 0,
            free,
        }
    }
}
