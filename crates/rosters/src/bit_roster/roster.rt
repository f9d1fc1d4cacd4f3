// The bit roster as a roster: a mark or a clear changes one bit of two words, and the count of free places.
ghost use Rattle.std.specs.Prelude.{◌≡◌, false, is_ok};
ghost use Rattle.rosters.specs.Rosters.{bit_sheet};
ghost use Rattle.tables.specs.Sheet.{marking, after_mark, clearing, after_clear};
ghost use Rattle.std.proofs.Common.{refl};

use super::BitRoster;
use tables::refusals::RosterRefusal;
use tables::table::{Roster, Table};
use words::sets::{holds, only};

// Mark and clear write the same words and differ in every step of it, the test, the change of a bit and the count: one text for both would ask at each step which of the two it is.
// That a refusal leaves the whole value as it was is said of each call, here and of the list roster: it is about two values, so no type can say it.
impl Roster for BitRoster {
    ghost sheet = { bit_sheet };

    ghost on_grid = { λ _. refl };

    fn free_places(&self) -> u16 {
        self.free
    }

    fn mark(&mut self, member: u8, slot: u8) -> Result<(), RosterRefusal>
        ensures answer { result ≡ marking (bit_sheet self.old) member slot }
        ensures after { bit_sheet self.new ≡ after_mark (bit_sheet self.old) member slot }
        ensures kept { is_ok result ≡ false → self.new ≡ self.old }
    {
        self.check_place(member, slot)?;
        let row = self.rows[member as usize];
        if !holds(row, slot) {
            let column = self.columns[slot as usize];
            self.rows[member as usize] = row | only(slot);
            self.columns[slot as usize] = column | only(member);
            self.free -= 1;
        }
        Ok(())
    }

    fn clear(&mut self, member: u8, slot: u8) -> Result<(), RosterRefusal>
        ensures answer { result ≡ clearing (bit_sheet self.old) member slot }
        ensures after { bit_sheet self.new ≡ after_clear (bit_sheet self.old) member slot }
        ensures kept { is_ok result ≡ false → self.new ≡ self.old }
    {
        self.check_place(member, slot)?;
        let row = self.rows[member as usize];
        if holds(row, slot) {
            let column = self.columns[slot as usize];
            self.rows[member as usize] = row ^ only(slot);
            self.columns[slot as usize] = column ^ only(member);
            self.free += 1;
        }
        Ok(())
    }
}
