// The bit roster: every pair has a place, and both questions are answered by reading a word.
ghost use Rattle.tables.specs.Filed.{Inside};
ghost use Rattle.rosters.specs.Kept.{Mirrored, Counted};

use tables::size::Size;

mod making;
pub mod roster;
pub mod table;

/// A roster with a place for every pair of a member and a slot.
#[derive(Drop)]
pub struct BitRoster {
    size: Size,
    // the slot word of each member; two arrays of a fixed size, since no heap is used and a question is to cost no more than reading a word
    rows: [u64; 64],
    // the member word of each slot
    columns: [u64; 64],
    // how many pairs are not marked
    free: u16,
    ghost inside: { Inside size.members size.slots rows },
    ghost mirrored: { Mirrored rows columns },
    ghost counted: { Counted size.members size.slots rows free },
}
