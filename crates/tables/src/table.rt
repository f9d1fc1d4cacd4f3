// What every table answers, and how a roster is changed.
ghost use Rattle.std.specs.Prelude.{◌≡◌};
ghost use Rattle.tables.specs.Grid.{Grid, Proper, slot_word, member_word};
ghost use Rattle.tables.specs.Sheet.{Sheet, placing, marking, after_mark, clearing, after_clear};

use crate::places::PlaceRefusal;
use crate::refusals::RosterRefusal;

/// A table of members and slots with marked pairs. Asking changes nothing.
pub trait Table {
    // What the table means.
    ghost grid: { Self → Grid };

    /// How many members there are.
    fn members(&self) -> u8
        ensures { result ≡ (grid self.now).members };

    /// How many slots there are.
    fn slots(&self) -> u8
        ensures { result ≡ (grid self.now).slots };

    /// The slots marked for `member`: none for a number that is no member.
    fn slot_word(&self, member: u8) -> u64
        ensures { result ≡ slot_word (grid self.now) member };

    /// The members marked in `slot`: none for a number that is no slot.
    fn member_word(&self, slot: u8) -> u64
        ensures { result ≡ member_word (grid self.now) slot };

    ghost proper: { (t : Self) → Proper (grid t) };

    /// Whether the table has the place of `member` and `slot`; refused for a number that is no member, then for one that is no slot.
    final fn check_place(&self, member: u8, slot: u8) -> Result<(), PlaceRefusal>
        ensures { result ≡ placing (grid self.now) member slot }
    {
        if member >= self.members() {
            Err(PlaceRefusal::NoMember)
        } else if slot >= self.slots() {
            Err(PlaceRefusal::NoSlot)
        } else {
            Ok(())
        }
    }
}

// A member and a slot are two numbers in every call, as the console's rules have them; a struct for both would be made at each call and say no more.
/// A table that can also be changed, within a number of free places.
pub trait Roster: Table {
    // What the roster means: the grid that it is as a table, and how many pairs can still be marked.
    ghost sheet: { Self → Sheet };

    /// How many more pairs can be marked.
    fn free_places(&self) -> u16
        ensures { result ≡ (sheet self.now).free };

    /// Marks the pair of `member` and `slot`; a newly marked pair takes a free place.
    fn mark(&mut self, member: u8, slot: u8) -> Result<(), RosterRefusal>
        ensures answer { result ≡ marking (sheet self.old) member slot }
        ensures after { sheet self.new ≡ after_mark (sheet self.old) member slot };

    /// Removes the mark of `member` and `slot`; a pair that was marked gives its place back.
    fn clear(&mut self, member: u8, slot: u8) -> Result<(), RosterRefusal>
        ensures answer { result ≡ clearing (sheet self.old) member slot }
        ensures after { sheet self.new ≡ after_clear (sheet self.old) member slot };

    ghost on_grid: { (r : Self) → (sheet r).grid ≡ Self.Table.grid r };
}

// A table that is lent is a table.
impl<T: Table> Table for &T {
    ghost grid = { λ t. T.Table.grid t.now };

    ghost proper = { λ t. T.Table.proper t.now };

    fn members(&self) -> u8 {
        (**self).members()
    }

    fn slots(&self) -> u8 {
        (**self).slots()
    }

    fn slot_word(&self, member: u8) -> u64 {
        (**self).slot_word(member)
    }

    fn member_word(&self, slot: u8) -> u64 {
        (**self).member_word(slot)
    }
}
