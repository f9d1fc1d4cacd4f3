// The bit roster as a table.
ghost use Rattle.rosters.specs.Rosters.{bit_grid};
ghost use Rattle.std.proofs.Common.{rules};

use super::BitRoster;
use tables::table::Table;

impl Table for BitRoster {
    ghost grid = { bit_grid };

    ghost proper = { Prim.search rules };

    fn members(&self) -> u8 {
        self.size.members()
    }

    fn slots(&self) -> u8 {
        self.size.slots()
    }

    fn slot_word(&self, member: u8) -> u64 {
        self.rows.get(member as usize).copied().unwrap_or(0)
    }

    fn member_word(&self, slot: u8) -> u64 {
        self.columns.get(slot as usize).copied().unwrap_or(0)
    }
}
