// The list roster as a table: a word is gathered from the codes in use.
ghost use Rattle.std.specs.Prelude.{◌≡◌, take};
ghost use Rattle.rosters.specs.Rosters.{list_grid};
ghost use Rattle.std.proofs.Common.{rules};

use super::ListRoster;
use tables::table::Table;
use words::sets::only;

impl ListRoster {
    // The codes in use.
    fn in_use(&self) -> &[u16]
        ensures { result.now ≡ take self.now.used self.now.codes.places }
    {
        &self.codes.places[0..self.used as usize]
    }
}

impl Table for ListRoster {
    ghost grid = { list_grid };

    ghost proper = { Prim.search rules };

    fn members(&self) -> u8 {
        self.size.members()
    }

    fn slots(&self) -> u8 {
        self.size.slots()
    }

    // The two words differ in which part of a code is asked for and which is taken; one text for both would take the two parts as closures and be no plainer.
    fn slot_word(&self, member: u8) -> u64 {
        let mut slots = 0;
        for code in self.in_use() {
            if code / 64 == u16::from(member) {
                slots |= only((code % 64) as u8);
            }
        }
        slots
    }

    fn member_word(&self, slot: u8) -> u64 {
        if slot >= self.size.slots() {
            return 0;
        }
        let mut members = 0;
        for code in self.in_use() {
            if code % 64 == u16::from(slot) {
                members |= only((code / 64) as u8);
            }
        }
        members
    }
}
