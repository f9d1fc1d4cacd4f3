// The same calls on every kind of roster and on piles of layers, each compared with the model; and a session over every kind of table.
use crate::model::{Model, View};
use crate::opening::{browse, mark_and_list};
use crate::playing::Counts;
use anyhow::anyhow;
use finders::limit::Limit;
use rosters::bit_roster::BitRoster;
use rosters::list_roster::ListRoster;
use std::alloc::{AllocError, Global};
use tables::size::Size;
use tables::table::Roster;
use tables::turned::Turned;
use views::windowed::Windowed;
use views::word_table::WordTable;

/// Runs the trials of the tables and prints their counts.
pub fn run(rt: &HostRuntime) -> anyhow::Result<()> {
    let heap = rt.alloc();
    let small = size_of(13, 17)?;
    let wide = size_of(20, 30)?;
    let full = size_of(64, 64)?;
    let mut counts = Counts::default();
    counts.plain(heap, small)?;
    counts.limited(heap, small)?;
    counts.turned_window(heap, wide)?;
    counts.window_of_turned(heap, wide)?;
    counts.last_slot(heap, full)?;
    counts.turned_twice(heap, full)?;
    println!(rt; "table calls compared: {}", counts.calls)?;
    println!(rt;
        "refused with 1: {}, with 2: {}, with 7: {}",
        counts.no_member, counts.no_slot, counts.no_place
    )?;
    println!(rt; "{}", counts.mismatches)?;
    let limit = Limit::try_from(512).map_err(|_| anyhow!("the limit is refused"))?;
    open_all(rt, small, limit)
}

fn size_of(members: u8, slots: u8) -> anyhow::Result<Size> {
    Size::new(members, slots).map_err(|_| anyhow!("the size is refused"))
}

impl Counts {
    // A bit roster alone.
    fn plain(&mut self, heap: Global, small: Size) -> Result<(), AllocError> {
        let mut model = Model::new(heap, View::whole(13, 17), 13 * 17)?;
        self.play(&mut BitRoster::new(small), &mut model, 2000, 1);
        Ok(())
    }

    // A list roster alone, with few places.
    fn limited(&mut self, heap: Global, small: Size) -> Result<(), AllocError> {
        let mut model = Model::new(heap, View::whole(13, 17), 40)?;
        self.play(&mut ListRoster::new(small, 40), &mut model, 2000, 1);
        Ok(())
    }

    // Turned over windowed over a list roster that has marks outside the window.
    fn turned_window(&mut self, heap: Global, wide: Size) -> Result<(), AllocError> {
        let mut model = Model::new(heap, View::whole(20, 30), 70)?;
        let mut roster = ListRoster::new(wide, 70);
        self.play(&mut roster, &mut model, 100, 2);
        let mut pile = Turned::new(Windowed::new(roster, 7, 11));
        model.view = View {
            members: 11,
            slots: 20,
            first_member: 0,
            first_slot: 7,
            turned: true,
        };
        self.play(&mut pile, &mut model, 2000, 3);
        model.view = View::whole(20, 30);
        self.compare(&pile.into_inner().into_inner(), &model);
        Ok(())
    }

    // Windowed over turned over a bit roster: the window shows the last 15 of the 20 members.
    fn window_of_turned(&mut self, heap: Global, wide: Size) -> Result<(), AllocError> {
        let mut model = Model::new(heap, View::whole(20, 30), 20 * 30)?;
        let mut roster = BitRoster::new(wide);
        self.play(&mut roster, &mut model, 100, 4);
        let mut pile = Windowed::new(Turned::new(roster), 5, 200);
        model.view = View {
            members: 30,
            slots: 15,
            first_member: 5,
            first_slot: 0,
            turned: true,
        };
        self.play(&mut pile, &mut model, 2000, 5);
        model.view = View::whole(20, 30);
        self.compare(&pile.into_inner().into_inner(), &model);
        Ok(())
    }

    // Windows that are asked for past the last slot or with no slot show one slot, over a list roster that was asked for more than 256 places.
    fn last_slot(&mut self, heap: Global, full: Size) -> Result<(), AllocError> {
        let mut model = Model::new(heap, View::whole(64, 64), 256)?;
        let mut roster = ListRoster::new(full, 300);
        self.play(&mut roster, &mut model, 1000, 6);
        let mut pile = Windowed::new(Windowed::new(roster, 200, 9), 3, 0);
        model.view = View {
            members: 64,
            slots: 1,
            first_member: 0,
            first_slot: 63,
            turned: false,
        };
        self.play(&mut pile, &mut model, 500, 7);
        model.view = View::whole(64, 64);
        self.compare(&pile.into_inner().into_inner(), &model);
        Ok(())
    }

    // Turned twice, over a window of all slots, is the roster itself.
    fn turned_twice(&mut self, heap: Global, full: Size) -> Result<(), AllocError> {
        let mut model = Model::new(heap, View::whole(64, 64), 64 * 64)?;
        let mut pile = Turned::new(Turned::new(Windowed::new(BitRoster::new(full), 0, 64)));
        self.play(&mut pile, &mut model, 1000, 8);
        Ok(())
    }
}

// A session over each kind of table, and over a pile, on grids with the same marks.
fn open_all(rt: &HostRuntime, small: Size, limit: Limit) -> anyhow::Result<()> {
    let bits = mark_and_list(BitRoster::new(small), limit);
    let list = mark_and_list(ListRoster::new(small, 256), limit);
    let turned = mark_and_list(Turned::new(BitRoster::new(small)), limit);
    let windowed = mark_and_list(Windowed::new(BitRoster::new(small), 4, 9), limit);
    let pile = mark_and_list(
        Turned::new(Windowed::new(ListRoster::new(small, 256), 4, 9)),
        limit,
    );
    let lent = [131, 6, 12, 24, 48, 96, 192, 385];
    let words = browse(WordTable::new(small, &lent), limit);
    println!(rt; "bit roster: {bits}")?;
    println!(rt; "list roster: {list}")?;
    println!(rt; "turned: {turned}")?;
    println!(rt; "windowed: {windowed}")?;
    println!(rt; "turned over windowed over list roster: {pile}")?;
    println!(rt; "word table: {words}")?;
    Ok(())
}
