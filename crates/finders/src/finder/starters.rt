// The starters: the different member words of a table's slots.
ghost use Rattle.std.specs.Prelude.{◌≡◌};
ghost use Rattle.finders.specs.Finder.{starts, starters};

use tables::table::Table;

/// How many different words with members the slots of `table` have.
pub fn count_starters<T: Table>(table: &T) -> u8
    ensures { result ≡ starters (T.Table.grid table.now) }
{
    (0..table.slots())
        .filter(|&slot| is_starter(table, slot))
        .count() as u8
}

// Whether `slot` has members and is the first slot with just these.
fn is_starter<T: Table>(table: &T, slot: u8) -> bool
    ensures { result ≡ starts (T.Table.grid table.now) slot }
{
    let word = table.member_word(slot);
    word != 0 && (0..slot).all(|earlier| table.member_word(earlier) != word)
}
