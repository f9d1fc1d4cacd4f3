// A table over words that are lent to it, one for each member.
ghost use Rattle.std.specs.Prelude.{◌≡◌};
ghost use Rattle.views.specs.Lent.{lent_grid};
ghost use Rattle.views.specs.Proper.{lent_proper};

use tables::size::Size;
use tables::table::Table;
use words::sets::{below, holds, only};

/// A table that reads the slot words of its members where they are. It cannot be changed.
#[derive(Clone, Copy)]
pub struct WordTable<'a> {
    size: Size,
    words: &'a [u64],
}

impl<'a> WordTable<'a> {
    /// The table of that size over `words`. A missing word is taken as 0; further words, and numbers in a word that are no slot, count
    /// for nothing.
    pub fn new(size: Size, words: &'a [u64]) -> WordTable<'a>
        ensures size { result.size ≡ size }
        ensures grid { lent_grid result.size.members result.size.slots result.words.now ≡ lent_grid size.members size.slots words.now }
    {
        WordTable { size, words }
    }
}

impl Table for WordTable<'_> {
    ghost grid = { λ t. lent_grid t.size.members t.size.slots t.words.now };

    ghost proper = { λ t. lent_proper t.size.members t.size.slots t.words.now t.size.some_member t.size.members_fit t.size.some_slot t.size.slots_fit };

    fn members(&self) -> u8 {
        self.size.members()
    }

    fn slots(&self) -> u8 {
        self.size.slots()
    }

    fn slot_word(&self, member: u8) -> u64 {
        if member >= self.size.members() {
            return 0;
        }
        match self.words.get(member as usize) {
            Some(word) => word & below(self.size.slots()),
            None => 0,
        }
    }

    fn member_word(&self, slot: u8) -> u64 {
        if slot >= self.size.slots() {
            return 0;
        }
        let count = self.size.members() as usize;
        let mut members = 0;
        for (i, word) in self.words.iter().enumerate() {
            if i < count && holds(*word, slot) {
                members |= only(i as u8);
            }
        }
        members
    }
}
