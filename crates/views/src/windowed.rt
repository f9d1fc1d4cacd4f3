// A table of which some slots that follow one another are shown, numbered from 0.
ghost use Rattle.std.specs.Prelude.{◌≡◌};
ghost use Rattle.tables.specs.Sheet.{sheet};
ghost use Rattle.views.specs.Window.{windowed, window_start, window_width};
ghost use Rattle.std.proofs.Common.{ap, rules};

use tables::refusals::RosterRefusal;
use tables::table::{Roster, Table};
use words::sets::below;

/// A table over another one, with the same members and a window of the other's slots.
#[derive(Drop)]
pub struct Windowed<T> {
    table: T,
    // where the window was asked to begin, in the slots below
    from: u8,
    // how many slots were asked for
    count: u8,
}

impl<T: Table> Windowed<T> {
    /// The table that shows `count` slots from slot `from` on. A `from` above the last slot is taken as the last slot, a `count` of 0 as
    /// 1, and the window ends where the slots end.
    pub fn new(table: T, from: u8, count: u8) -> Windowed<T>
        ensures inner { result.table ≡ table }
        ensures grid { windowed result.from result.count (T.Table.grid result.table) ≡ windowed from count (T.Table.grid table) }
    {
        Windowed { table, from, count }
    }

    /// The table below, with all its slots.
    pub fn into_inner(self) -> T
        ensures { result ≡ self.table }
    {
        let Windowed {
            table,
            from: _,
            count: _,
        } = self;
        table
    }

    // The slot below that is shown as slot 0.
    fn start(&self) -> u8
        ensures { result ≡ window_start (T.Table.grid self.now.table).slots self.now.from }
    {
        self.from.min(self.table.slots() - 1)
    }

    // How many slots are shown.
    fn width(&self) -> u8
        ensures { result ≡ window_width (T.Table.grid self.now.table).slots self.now.from self.now.count }
    {
        self.count.max(1).min(self.table.slots() - self.start())
    }
}

impl<T: Table> Table for Windowed<T> {
    ghost grid = { λ t. windowed t.from t.count (T.Table.grid t.table) };

    ghost proper = { Prim.search rules };

    fn members(&self) -> u8 {
        self.table.members()
    }

    fn slots(&self) -> u8 {
        self.width()
    }

    fn slot_word(&self, member: u8) -> u64 {
        (self.table.slot_word(member) >> self.start()) & below(self.width())
    }

    fn member_word(&self, slot: u8) -> u64 {
        if slot < self.width() {
            self.table.member_word(self.start() + slot)
        } else {
            0
        }
    }
}

// Mark and clear hand on two calls of other names; one text for both would take the call as a closure and be no plainer.
impl<R: Roster> Roster for Windowed<R> {
    ghost sheet = { λ r. sheet (windowed r.from r.count (R.Roster.sheet r.table).grid) (R.Roster.sheet r.table).free };

    ghost on_grid = { λ r. ap (windowed r.from r.count) (R.Roster.on_grid r.table) };

    fn free_places(&self) -> u16 {
        self.table.free_places()
    }

    fn mark(&mut self, member: u8, slot: u8) -> Result<(), RosterRefusal> {
        self.check_place(member, slot)?;
        let below = self.start() + slot;
        self.table.mark(member, below)
    }

    fn clear(&mut self, member: u8, slot: u8) -> Result<(), RosterRefusal> {
        self.check_place(member, slot)?;
        let below = self.start() + slot;
        self.table.clear(member, below)
    }
}
