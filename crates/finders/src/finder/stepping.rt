// One step of the finder: the slots' members first, then what each found crew has in common with each starter.
ghost use Rattle.std.specs.Prelude.{◌≡◌, ◌<◌, cond};
ghost use Rattle.std.specs.Option.{option_map};
ghost use Rattle.tables.specs.Grid.{common_slots};
ghost use Rattle.tables.specs.Sides.{sides, crew_of};
ghost use Rattle.finders.specs.Found.{has_members};
ghost use Rattle.finders.specs.Finder.{finding, members_at, due, step_answer, after_step};

use super::starters::count_starters;
use super::{Finder, Step};
use crate::refusals::StepRefusal;
use tables::common::common_slots;
use tables::crew::Crew;
use tables::table::Table;

impl Finder {
    /// Works one step on `table`: adds at most one crew, or is refused where the limit admits no more, or is done.
    pub fn step<T: Table>(&mut self, table: &T) -> Result<Step, StepRefusal>
        ensures answer { result ≡ step_answer (T.Table.grid table.now) self.old.limit (finding self.old) }
        ensures after { finding self.new ≡ after_step (T.Table.grid table.now) self.old.limit (finding self.old) }
        ensures limit { self.new.limit ≡ self.old.limit }
    {
        let Some(members) = self.wanted(table) else {
            return Ok(Step::Done);
        };
        let Some(crew) = self.fresh(table, members) else {
            self.worked += 1;
            return Ok(Step::Worked);
        };
        if self.found.len() >= self.limit.crews() {
            return Err(StepRefusal::Full);
        }
        self.found.push(crew);
        self.worked += 1;
        Ok(Step::Worked)
    }

    // The members that the next step takes, or none where every found crew has met every starter.
    fn wanted<T: Table>(&self, table: &T) -> Option<u64>
        ensures { result ≡ due (T.Table.grid table.now) (finding self.now) }
    {
        let slots = u32::from(table.slots());
        if self.worked < slots {
            return Some(table.member_word(self.worked as u8));
        }
        let pair = self.worked - slots;
        let starters = u32::from(count_starters(table));
        if pair >= starters * u32::from(self.found.len()) {
            return None;
        }
        let crew = self.members_at(pair / starters);
        let starter = self.members_at(pair % starters);
        Some(crew & starter)
    }

    // The crew of these members with their common slots, unless a found crew has the members.
    fn fresh<T: Table>(&self, table: &T, members: u64) -> Option<Crew>
        ensures { option_map sides result ≡ cond (has_members members (finding self.now).found) None (crew_of members (common_slots (T.Table.grid table.now) members)) }
    {
        if self.found.holds(members) {
            return None;
        }
        Crew::new(members, common_slots(table, members))
    }

    // The members of found crew number `k`, or none.
    fn members_at(&self, k: u32) -> u64
        requires { k < 65536 }
        ensures { result ≡ members_at (finding self.now).found k }
    {
        self.found.get(k as u16).map_or(0, |crew| crew.members())
    }
}
