// What members have in common, and what slots have.
ghost use Rattle.std.specs.Prelude.{◌≡◌};
ghost use Rattle.tables.specs.Grid.{common_slots, common_members};

use crate::table::Table;
use crate::turned::Turned;
use words::sets::{below, holds};

/// The slots marked for every member of the word: none for no members, and none where a number of it is no member.
pub fn common_slots<T: Table>(table: &T, members: u64) -> u64
    ensures { result ≡ common_slots (T.Table.grid table.now) members }
{
    let count = table.members();
    if members == 0 || members > below(count) {
        return 0;
    }
    (0..count).fold(below(table.slots()), |shared, i| {
        if holds(members, i) {
            shared & table.slot_word(i)
        } else {
            shared
        }
    })
}

/// The members marked in every slot of the word: none for no slots, and none where a number of it is no slot.
pub fn common_members<T: Table>(table: &T, slots: u64) -> u64
    ensures { result ≡ common_members (T.Table.grid table.now) slots }
{
    common_slots(&Turned::new(table), slots)
}
