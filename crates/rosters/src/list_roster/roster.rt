// The list roster as a roster: a newly marked pair takes a place for its code, and a cleared one leaves it.
ghost use Rattle.std.specs.Prelude.{◌≡◌, false, is_ok};
ghost use Rattle.rosters.specs.Coded.{pair_code};
ghost use Rattle.rosters.specs.Rosters.{list_sheet};
ghost use Rattle.tables.specs.Sheet.{marking, after_mark, clearing, after_clear};
ghost use Rattle.std.proofs.Common.{refl};

use super::ListRoster;
use super::sorted::{first_place, put_in, take_out};
use tables::refusals::RosterRefusal;
use tables::table::{Roster, Table};

// The code of a pair, which is two numbers as in every call of the console.
fn pair_code(member: u8, slot: u8) -> u16
    ensures { result ≡ pair_code member slot }
{
    64 * u16::from(member) + u16::from(slot)
}

impl Roster for ListRoster {
    ghost sheet = { list_sheet };

    ghost on_grid = { λ _. refl };

    fn free_places(&self) -> u16 {
        self.free
    }

    fn mark(&mut self, member: u8, slot: u8) -> Result<(), RosterRefusal>
        ensures answer { result ≡ marking (list_sheet self.old) member slot }
        ensures after { list_sheet self.new ≡ after_mark (list_sheet self.old) member slot }
        ensures kept { is_ok result ≡ false → self.new ≡ self.old }
    {
        self.check_place(member, slot)?;
        let code = pair_code(member, slot);
        let used = self.used as usize;
        let at = first_place(&self.codes.places, used, code);
        if self.codes.places[at] == code {
            return Ok(());
        }
        if self.free == 0 {
            return Err(RosterRefusal::NoPlace);
        }
        put_in(&mut self.codes.places, used, at, code);
        self.used += 1;
        self.free -= 1;
        Ok(())
    }

    fn clear(&mut self, member: u8, slot: u8) -> Result<(), RosterRefusal>
        ensures answer { result ≡ clearing (list_sheet self.old) member slot }
        ensures after { list_sheet self.new ≡ after_clear (list_sheet self.old) member slot }
        ensures kept { is_ok result ≡ false → self.new ≡ self.old }
    {
        self.check_place(member, slot)?;
        let code = pair_code(member, slot);
        let used = self.used as usize;
        let at = first_place(&self.codes.places, used, code);
        if self.codes.places[at] == code {
            take_out(&mut self.codes.places, used, at);
            self.used -= 1;
            self.free += 1;
        }
        Ok(())
    }
}
