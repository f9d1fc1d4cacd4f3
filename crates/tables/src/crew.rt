// A crew: some members and the slots that they share, neither of them empty.
ghost use Rattle.std.specs.Prelude.{◌^◌, ◌<◌};

mod making;

/// Members and slots that belong together, as words. Neither side is ever empty.
#[derive(Clone, Copy, PartialEq, Eq, Debug)]
pub struct Crew {
    members: u64,
    slots: u64,
    ghost some_member: { 0 < members },
    ghost some_slot: { 0 < slots },
    ghost members_fit: { members < 2 ^ 64 },
    ghost slots_fit: { slots < 2 ^ 64 },
}
