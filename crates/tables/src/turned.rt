// A table with members and slots exchanged.
ghost use Rattle.std.specs.Prelude.{◌≡◌};
ghost use Rattle.tables.specs.Grid.{turned};
ghost use Rattle.tables.specs.Sheet.{sheet};
ghost use Rattle.std.proofs.Common.{ap, rules};

use crate::refusals::RosterRefusal;
use crate::table::{Roster, Table};

/// A table over another one, whose members are the other's slots and whose slots are the other's members.
#[derive(Drop)]
pub struct Turned<T> {
    table: T,
}

impl<T: Table> Turned<T> {
    /// The table with members and slots exchanged.
    pub fn new(table: T) -> Turned<T>
        ensures inner { result.table ≡ table }
        ensures grid { turned (T.Table.grid result.table) ≡ turned (T.Table.grid table) }
    {
        Turned { table }
    }

    /// The table below, in its own numbering. Turned once more, the grid is that of the table below.
    pub fn into_inner(self) -> T
        ensures inner { result ≡ self.table }
        ensures twice { turned (turned (T.Table.grid self.table)) ≡ T.Table.grid result }
    {
        let Turned { table } = self;
        table
    }
}

impl<T: Table> Table for Turned<T> {
    ghost grid = { λ t. turned (T.Table.grid t.table) };

    ghost proper = { Prim.search rules };

    fn members(&self) -> u8 {
        self.table.slots()
    }

    fn slots(&self) -> u8 {
        self.table.members()
    }

    fn slot_word(&self, member: u8) -> u64 {
        self.table.member_word(member)
    }

    fn member_word(&self, slot: u8) -> u64 {
        self.table.slot_word(slot)
    }
}

// Mark and clear hand on two calls of other names, here and in a window; one text for both would take the call as a closure and be no plainer.
impl<R: Roster> Roster for Turned<R> {
    ghost sheet = { λ r. sheet (turned (R.Roster.sheet r.table).grid) (R.Roster.sheet r.table).free };

    ghost on_grid = { λ r. ap turned (R.Roster.on_grid r.table) };

    fn free_places(&self) -> u16 {
        self.table.free_places()
    }

    fn mark(&mut self, member: u8, slot: u8) -> Result<(), RosterRefusal> {
        self.check_place(member, slot)?;
        self.table.mark(slot, member)
    }

    fn clear(&mut self, member: u8, slot: u8) -> Result<(), RosterRefusal> {
        self.check_place(member, slot)?;
        self.table.clear(slot, member)
    }
}
