// A marking session: a roster that takes marks until it is closed.
ghost use Rattle.std.specs.Prelude.{◌≡◌, ◌-◌, ◌^◌};
ghost use Rattle.tables.specs.Sheet.{marking, after_mark, clearing, after_clear};
ghost use Rattle.finders.specs.Finder.{finding, beginning};
ghost use Rattle.std.proofs.Common.{rules};

use crate::listing::Listing;
use finders::limit::Limit;
use tables::refusals::RosterRefusal;
use tables::table::{Roster, Table};

/// A session that marks and clears pairs of its roster.
#[derive(Drop)]
pub struct Marking<R> {
    pub(crate) roster: R,
}

impl<R: Roster> Marking<R> {
    /// A new session on `roster`, which keeps its pairs.
    pub fn new(roster: R) -> Marking<R>
        ensures { result.roster ≡ roster }
    {
        Marking { roster }
    }

    // A member and a slot are two numbers, as in every call of the console.
    /// Marks the pair of `member` and `slot` on the roster.
    pub fn mark(&mut self, member: u8, slot: u8) -> Result<(), RosterRefusal>
        ensures answer { result ≡ marking (R.Roster.sheet self.old.roster) member slot }
        ensures after { R.Roster.sheet self.new.roster ≡ after_mark (R.Roster.sheet self.old.roster) member slot }
    {
        self.roster.mark(member, slot)
    }

    /// Clears the pair of `member` and `slot` on the roster.
    pub fn clear(&mut self, member: u8, slot: u8) -> Result<(), RosterRefusal>
        ensures answer { result ≡ clearing (R.Roster.sheet self.old.roster) member slot }
        ensures after { R.Roster.sheet self.new.roster ≡ after_clear (R.Roster.sheet self.old.roster) member slot }
    {
        self.roster.clear(member, slot)
    }

    /// The listing session of the same roster, with the walk and the finder at their start.
    pub fn close(self, limit: Limit) -> Listing<R>
        ensures table { result.table ≡ self.roster }
        ensures start { result.walk ≡ 2 ^ 64 - 1 }
        ensures beginning { finding result.finder ≡ beginning }
        ensures limit { result.finder.limit ≡ limit }
    {
        let Marking { roster } = self;
        Listing::browse(roster, limit)
    }
}

// A marking session answers as its roster does, call by call, as a listing session hands on those of its table.
impl<R: Roster> Table for Marking<R> {
    ghost grid = { λ s. R.Table.grid s.roster };

    ghost proper = { Prim.search rules };

    fn members(&self) -> u8 {
        self.roster.members()
    }

    fn slots(&self) -> u8 {
        self.roster.slots()
    }

    fn slot_word(&self, member: u8) -> u64 {
        self.roster.slot_word(member)
    }

    fn member_word(&self, slot: u8) -> u64 {
        self.roster.member_word(slot)
    }
}
