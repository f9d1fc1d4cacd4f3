// A listing session: a table that no longer changes, the walk over its crews, and the finder of its crews.
ghost use Rattle.std.specs.Prelude.{◌≡◌, ◌-◌, ◌^◌, ◌≤◌, length};
ghost use Rattle.std.specs.Option.{option_map};
ghost use Rattle.tables.specs.Crews.{ahead, crews};
ghost use Rattle.tables.specs.Firsts.{first, rest};
ghost use Rattle.tables.specs.Sides.{sides};
ghost use Rattle.walks.specs.Walks.{past};
ghost use Rattle.finders.specs.Finder.{finding, beginning, step_answer, after_step};
ghost use Rattle.finders.specs.Found.{number};
ghost use Rattle.sessions.specs.Cover.{told_cover, cover_answer, GivesCover};
ghost use Rattle.std.proofs.Common.{rules};

use crate::marking::Marking;
use finders::finder::{Finder, Step};
use finders::limit::Limit;
use finders::refusals::StepRefusal;
use tables::crew::Crew;
use tables::places::PlaceRefusal;
use tables::table::{Roster, Table};
use walks::walk::Walk;

mod searching;

// What a call leaves as it was, of table, walk and finder, is said of each call that changes something: it is about two values, so no type can say it.
/// A session that gives the crews of its table.
#[derive(Drop)]
pub struct Listing<T> {
    table: T,
    walk: Walk,
    finder: Finder,
}

impl<T: Table> Listing<T> {
    /// A listing session of any table, with the walk and the finder at their start.
    pub fn browse(table: T, limit: Limit) -> Listing<T>
        ensures table { result.table ≡ table }
        ensures start { result.walk ≡ 2 ^ 64 - 1 }
        ensures beginning { finding result.finder ≡ beginning }
        ensures limit { result.finder.limit ≡ limit }
    {
        Listing {
            table,
            walk: Walk::start(),
            finder: Finder::new(limit),
        }
    }

    /// The first crew ahead, moving just past it, or none.
    pub fn next(&mut self) -> Option<Crew>
        ensures answer { option_map sides result ≡ first (ahead (T.Table.grid self.old.table) self.old.walk) }
        ensures ahead { ahead (T.Table.grid self.old.table) self.new.walk ≡ rest (ahead (T.Table.grid self.old.table) self.old.walk) }
        ensures moved { self.new.walk ≡ past result self.old.walk }
        ensures table { self.new.table ≡ self.old.table }
        ensures finder { self.new.finder ≡ self.old.finder }
    {
        self.walk.next(&self.table)
    }

    /// Goes back to the start, so that every crew is ahead.
    pub fn rewind(&mut self)
        ensures start { self.new.walk ≡ 2 ^ 64 - 1 }
        ensures table { self.new.table ≡ self.old.table }
        ensures finder { self.new.finder ≡ self.old.finder }
    {
        self.walk = Walk::start();
    }

    /// Goes to the first crew whose member word is not before `word`.
    pub fn seek(&mut self, word: u64)
        ensures position { self.new.walk ≡ word }
        ensures table { self.new.table ≡ self.old.table }
        ensures finder { self.new.finder ≡ self.old.finder }
    {
        self.walk.seek(word);
    }

    /// The limit that it was opened with.
    pub fn limit(&self) -> Limit
        ensures limit { result ≡ self.now.finder.limit }
        ensures few { result ≤ 512 }
    {
        self.finder.limit()
    }

    /// Works one step of the finder: it adds at most one crew, or is refused where the limit admits no more, or is done.
    pub fn step(&mut self) -> Result<Step, StepRefusal>
        ensures answer { result ≡ step_answer (T.Table.grid self.old.table) self.old.finder.limit (finding self.old.finder) }
        ensures after { finding self.new.finder ≡ after_step (T.Table.grid self.old.table) self.old.finder.limit (finding self.old.finder) }
        ensures limit { self.new.finder.limit ≡ self.old.finder.limit }
        ensures table { self.new.table ≡ self.old.table }
        ensures walk { self.new.walk ≡ self.old.walk }
    {
        self.finder.step(&self.table)
    }

    /// How many steps have worked.
    pub fn steps(&self) -> u32
        ensures { result ≡ (finding self.now.finder).steps }
    {
        self.finder.steps()
    }

    /// How many crews are found.
    pub fn found_len(&self) -> u16
        ensures count { result ≡ length (finding self.now.finder).found }
        ensures few { result ≤ 512 }
    {
        self.finder.found_len()
    }

    /// Found crew number `k`, counted from 0, or none.
    pub fn found(&self, k: u16) -> Option<Crew>
        ensures { option_map sides result ≡ number (finding self.now.finder).found k }
    {
        self.finder.found(k)
    }

    // A member and a slot are two numbers, as in every call of the console.
    /// A found crew that has the member and the slot, or none; refused for a number that is no member, then for one that is no slot.
    pub fn cover(&self, member: u8, slot: u8) -> Result<Option<Crew>, PlaceRefusal>
        ensures answer { told_cover result ≡ cover_answer (T.Table.grid self.now.table) (finding self.now.finder).found member slot }
        ensures covers { GivesCover (finding self.now.finder).found member slot (told_cover result) }
    {
        self.table.check_place(member, slot)?;
        Ok(self.finder.covering(member, slot))
    }
}

impl<R: Roster> Listing<R> {
    /// The marking session of the same roster; the position and the found crews are dropped.
    pub fn reopen(self) -> Marking<R>
        ensures { result.roster ≡ self.table }
    {
        let Listing {
            table,
            walk: _,
            finder: _,
        } = self;
        Marking::new(table)
    }
}

// A listing session answers as its table does. The calls are handed on one by one, here and for a marking session: nothing shorter hands on a trait.
impl<T: Table> Table for Listing<T> {
    ghost grid = { λ s. T.Table.grid s.table };

    ghost proper = { Prim.search rules };

    fn members(&self) -> u8 {
        self.table.members()
    }

    fn slots(&self) -> u8 {
        self.table.slots()
    }

    fn slot_word(&self, member: u8) -> u64 {
        self.table.slot_word(member)
    }

    fn member_word(&self, slot: u8) -> u64 {
        self.table.member_word(slot)
    }
}
