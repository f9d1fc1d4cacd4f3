// The slot words of a table, read once, and the search for crews in them.
ghost use Rattle.tables.specs.Filed.{Inside};

use tables::size::Size;

mod greedy;
mod reading;

/// The slot word of each member of a table.
#[derive(Drop)]
pub struct Rows {
    // an array of a fixed size, since no heap is used below the programs
    words: [u64; 64],
    size: Size,
    ghost inside: { Inside size.members size.slots words },
}
