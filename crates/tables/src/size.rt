// How many members and slots a table has: 1 to 64 of each.
ghost use Rattle.std.specs.Prelude.{◌≤◌};

mod making;

/// The numbers of members and slots of a table, each from 1 to 64.
#[derive(Clone, Copy, PartialEq, Eq, Debug)]
pub struct Size {
    members: u8,
    slots: u8,
    ghost some_member: { 1 ≤ members },
    ghost members_fit: { members ≤ 64 },
    ghost some_slot: { 1 ≤ slots },
    ghost slots_fit: { slots ≤ 64 },
}
