// A finder that starts, and what it tells of itself.
ghost use Rattle.std.specs.Prelude.{◌≡◌, ◌≤◌, length};
ghost use Rattle.std.specs.Option.{option_map};
ghost use Rattle.tables.specs.Sides.{sides};
ghost use Rattle.finders.specs.Finder.{finding, beginning};
ghost use Rattle.finders.specs.Found.{number, covering};

use super::Finder;
use crate::found::Found;
use crate::limit::Limit;
use tables::crew::Crew;

impl Finder {
    /// A finder that has found nothing and worked no step.
    pub fn new(limit: Limit) -> Finder
        ensures state { finding result ≡ beginning }
        ensures limit { result.limit ≡ limit }
    {
        // Asked for what it says besides: that a limit is at most 512.
        let _crews = limit.crews();
        Finder {
            found: Found::new(),
            worked: 0,
            limit,
        }
    }

    /// The most crews that may be found.
    pub fn limit(&self) -> Limit
        ensures limit { result ≡ self.now.limit }
        ensures few { result ≤ 512 }
    {
        self.limit
    }

    /// How many steps have worked.
    pub fn steps(&self) -> u32
        ensures { result ≡ (finding self.now).steps }
    {
        self.worked
    }

    /// How many crews are found.
    pub fn found_len(&self) -> u16
        ensures count { result ≡ length (finding self.now).found }
        ensures few { result ≤ 512 }
    {
        self.found.len()
    }

    /// Found crew number `k`, counted from 0, or none.
    pub fn found(&self, k: u16) -> Option<Crew>
        ensures { option_map sides result ≡ number (finding self.now).found k }
    {
        self.found.get(k)
    }

    // A member and a slot are two numbers, as in every call of the console.
    /// The first found crew that has the member and the slot, or none.
    pub fn covering(&self, member: u8, slot: u8) -> Option<Crew>
        ensures { option_map sides result ≡ covering member slot (finding self.now).found }
    {
        self.found.covering(member, slot)
    }
}
