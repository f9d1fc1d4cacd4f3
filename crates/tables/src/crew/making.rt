// A crew is made of two words that are not empty, and tells them.
ghost use Rattle.std.specs.Prelude.{◌≡◌};
ghost use Rattle.tables.specs.Sides.{sides, crew_of};
ghost use Rattle.std.specs.Option.{option_map};

use super::Crew;

impl Crew {
    /// The crew of these members and slots, or none where a side is empty.
    pub fn new(members: u64, slots: u64) -> Option<Crew>
        ensures { option_map sides result ≡ crew_of members slots }
    {
        if members == 0 || slots == 0 {
            return None;
        }
        Some(Crew { members, slots })
    }

    /// The word of its members.
    pub fn members(&self) -> u64
        ensures { result ≡ self.now.members }
    {
        self.members
    }

    /// The word of its slots.
    pub fn slots(&self) -> u64
        ensures { result ≡ self.now.slots }
    {
        self.slots
    }
}
