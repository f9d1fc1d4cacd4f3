// The walk: a position among the words, and the crews that lie ahead of it.
ghost use Rattle.std.specs.Prelude.{◌≡◌, ℕ, ◌-◌, ◌^◌};
ghost use Rattle.std.specs.Option.{option_map};
ghost use Rattle.tables.specs.Crews.{ahead};
ghost use Rattle.tables.specs.Firsts.{first, rest};
ghost use Rattle.tables.specs.Sides.{sides};
ghost use Rattle.walks.specs.Walks.{past};

use crate::rows::Rows;
use std::marker::Model;
use tables::crew::Crew;
use tables::table::Table;
use words::order::successor;

/// A position in crew order. It stores no crew: the crews ahead are those whose member word is not before the position.
#[derive(Clone, Copy)]
pub struct Walk {
    position: u64,
}

impl Model for Walk {
    ghost Value = { ℕ };

    ghost view = { λ w. w.position };

    ghost inverse = { λ n. record { position = n } };
}

impl Walk {
    /// The walk at its start, with every crew ahead.
    pub fn start() -> Walk
        ensures { result ≡ 2 ^ 64 - 1 }
    {
        Walk { position: u64::MAX }
    }

    /// Goes to the first crew whose member word is not before `word`.
    pub fn seek(&mut self, word: u64)
        ensures { self.new ≡ word }
    {
        self.position = word;
    }

    /// The first crew of `table` ahead, moving just past it, or none.
    pub fn next<T: Table>(&mut self, table: &T) -> Option<Crew>
        ensures answer { option_map sides result ≡ first (ahead (T.Table.grid table.now) self.old) }
        ensures ahead { ahead (T.Table.grid table.now) self.new ≡ rest (ahead (T.Table.grid table.now) self.old) }
        ensures moved { self.new ≡ past result self.old }
    {
        let crew = Rows::read(table).first_from(self.position)?;
        self.position = successor(crew.members());
        Some(crew)
    }
}
