// The whole walk: one `next` after another from the start.
ghost use Rattle.std.specs.Prelude.{◌≡◌, map, length, drop};
ghost use Rattle.std.specs.Option.{option_map};
ghost use Rattle.tables.specs.Crews.{ahead, crews};
ghost use Rattle.tables.specs.Sides.{sides};
ghost use Rattle.tables.specs.Walk.{ListsTheCrews};
ghost use Rattle.sessions.specs.Tours.{in_turn, ReachesEachCrew};

use crate::listing::Listing;
use tables::crew::Crew;
use tables::table::Table;

/// Rewinds the session and writes the answer of one `next` after another into the places, from the first on: the crews in crew order, and then none.
pub fn list_into<T: Table>(session: &mut Listing<T>, places: &mut [Option<Crew>])
    ensures answers { map (option_map sides) places.new ≡ in_turn (length places.old) (crews (T.Table.grid session.old.table)) }
    ensures left { ahead (T.Table.grid session.old.table) session.new.walk ≡ drop (length places.old) (crews (T.Table.grid session.old.table)) }
    ensures every_crew_is_reached { ReachesEachCrew (T.Table.grid session.old.table) (map (option_map sides) places.new) }
    ensures crews_are_listed { ListsTheCrews (T.Table.grid session.old.table) (crews (T.Table.grid session.old.table)) }
    ensures table { session.new.table ≡ session.old.table }
    ensures finder { session.new.finder ≡ session.old.finder }
{
    session.rewind();
    for place in places.iter_mut() {
        *place = session.next();
    }
}
