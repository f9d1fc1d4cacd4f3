// The found list: crews with different members, in the order in which they were found. It lies in one piece and takes no memory besides.
ghost use Rattle.std.specs.Prelude.{◌≡◌, ℕ, ◌<◌, ◌≤◌, false, List, [], ◌∷◌, ◌++◌, length};
ghost use Rattle.std.specs.Option.{option_map};
ghost use Rattle.tables.specs.Sides.{sides};
ghost use Rattle.finders.specs.Found.{number, has_members, covers, covering};

use std::marker::Model;
use tables::crew::Crew;
use words::sets::holds;

/// At most 512 crews with different members, in the order in which they were found.
// The places and their count lie side by side: there is no heap for a Vec, and a vector in place would fill its unused places with a blank crew, which there is not.
#[derive(Drop)]
pub struct Found {
    places: [Option<Crew>; 512],
    used: u16,
}

impl Model for Found {
    ghost use Rattle.std.specs.Prelude.{ℕ, List};
    ghost use Rattle.finders.specs.Places.{front_crews, Places};

    ghost Value = { List (ℕ × ℕ) };

    ghost view = { λ f. front_crews f.places f.used };

    ghost invariant = { λ f. Places f.places f.used };
}

impl Found {
    /// The found list with no crew.
    pub fn new() -> Found
        ensures { result ≡ [] }
    {
        Found {
            places: [None; 512],
            used: 0,
        }
    }

    /// How many crews there are.
    pub fn len(&self) -> u16
        ensures count { result ≡ length self.now }
        ensures few { result ≤ 512 }
    {
        self.used
    }

    /// Crew number `k`, counted from 0, or none.
    pub fn get(&self, k: u16) -> Option<Crew>
        ensures { option_map sides result ≡ number self.now k }
    {
        self.places.get(k as usize).copied().flatten()
    }

    /// Whether a crew has exactly these members.
    pub fn holds(&self, members: u64) -> bool
        ensures { result ≡ has_members members self.now }
    {
        self.places[..self.used as usize]
            .iter()
            .copied()
            .flatten()
            .any(|crew| crew.members() == members)
    }

    // A member and a slot are two numbers, as in every call of the console.
    /// The first crew that has the member and the slot, or none.
    pub fn covering(&self, member: u8, slot: u8) -> Option<Crew>
        ensures { option_map sides result ≡ covering member slot self.now }
    {
        self.places[..self.used as usize]
            .iter()
            .copied()
            .flatten()
            .find(|crew| is_covering(crew, member, slot))
    }

    /// Adds the crew last.
    pub(crate) fn push(&mut self, crew: Crew)
        requires room { length self.old < 512 }
        requires fresh { has_members crew.members self.old ≡ false }
        ensures { self.new ≡ self.old ++ sides crew ∷ [] }
    {
        self.places[self.used as usize] = Some(crew);
        self.used += 1;
    }
}

// Whether the crew has the member and the slot.
fn is_covering(crew: &Crew, member: u8, slot: u8) -> bool
    ensures { result ≡ covers member slot (sides crew.now) }
{
    holds(crew.members(), member) && holds(crew.slots(), slot)
}
