// Reading a table's slot words.
ghost use Rattle.std.specs.Prelude.{◌≡◌};
ghost use Rattle.walks.specs.Rows.{rows_grid};

use super::Rows;
use std::array;
use tables::size::Size;
use tables::table::Table;

impl Rows {
    /// The slot words of `table`.
    pub fn read<T: Table>(table: &T) -> Rows
        ensures { rows_grid result ≡ T.Table.grid table.now }
    {
        Rows {
            words: array::from_fn(|i| table.slot_word(i as u8)),
            size: Size::of(table),
        }
    }
}
