// Which members and slots are a crew, told in two ways: by what each side has in common, and as a maximal biclique.
ghost use Rattle.std.specs.Prelude.{◌≡◌, Decides};
ghost use Rattle.tables.specs.Biclique.{MaximalBiclique};
ghost use Rattle.tables.specs.Crews.{is_crew};

use crate::common::{common_members, common_slots};
use crate::table::Table;

/// Whether the members and the slots are a maximal biclique of the table: neither is empty, every member is marked in every slot, and
/// no member and no slot can be added.
pub fn is_maximal_biclique<T: Table>(table: &T, members: u64, slots: u64) -> bool
    ensures crew { result ≡ is_crew (T.Table.grid table.now) members slots }
    ensures biclique { Decides result (MaximalBiclique (T.Table.grid table.now) members slots) }
{
    let common = common_slots(table, members);
    let sharing = common_members(table, slots);
    ((members > 0) & (slots > 0)) & ((slots == common) & (members == sharing))
}
