// The first crew from a word on: the word itself where it is a crew's, or else the first crew that parts from it as late as can be.
//
// A crew after a word parts from it at some number that the word has and the crew has not, and agrees with it below. The higher that
// number, the earlier the crew. With the members up to that number fixed, the first crew takes in every further number that can still
// be part of a crew; a number that cannot be taken in cannot be so later either.
ghost use Rattle.std.specs.Prelude.{◌≡◌, ℕ, ◌%◌, ◌^◌, ◌<◌, ◌≤◌, slice_index};
ghost use Rattle.std.specs.Option.{option_map};
ghost use Rattle.tables.specs.Crews.{ahead, manned};
ghost use Rattle.tables.specs.Firsts.{first};
ghost use Rattle.tables.specs.Grid.{slot_word, shared_slots};
ghost use Rattle.tables.specs.Sides.{sides, crew_of};
ghost use Rattle.tables.specs.Walk.{closed_below, fits, pass};
ghost use Rattle.walks.specs.Rows.{rows_grid};

use super::Rows;
use tables::crew::Crew;
use words::sets::{below, holds, only};

impl Rows {
    /// The first crew whose member word is not before `position`.
    pub fn first_from(&self, position: u64) -> Option<Crew>
        ensures { option_map sides result ≡ first (ahead (rows_grid self.now) position) }
    {
        let count = self.size.members();
        let word = position & below(count);
        let shared = self.shared_by_fronts(word);
        let slots = shared[count as usize];
        if self.is_manned(word, slots) {
            return Crew::new(word, slots);
        }
        let i = (0..count).rev().find(|&i| {
            holds(word, i) && self.may_part(i, word & below(i), shared[i as usize])
        })?;
        self.complete(i, word & below(i), shared[i as usize])
    }

    // The slots shared by the numbers of `word` below each i.
    fn shared_by_fronts(&self, word: u64) -> [u64; 65]
        ensures { (i : ℕ) → i ≤ self.now.size.members → slice_index result i ≡ shared_slots (rows_grid self.now) (word % 2 ^ i) }
    {
        // an array of a fixed size, since no heap is used below the programs
        let mut shared = [0; 65];
        let mut slots = below(self.size.slots());
        shared[0] = slots;
        // A loop, since each entry is made from the one before, and a chain collects only into memory of the heap.
        for i in 0..self.size.members() {
            if holds(word, i) {
                slots &= self.word(i);
            }
            shared[i as usize + 1] = slots;
        }
        shared
    }

    // Whether `word`, whose members share `slots`, is the member word of a crew.
    fn is_manned(&self, word: u64, slots: u64) -> bool
        requires below { word < 2 ^ self.now.size.members }
        requires shared { slots ≡ shared_slots (rows_grid self.now) word }
        ensures { result ≡ manned (rows_grid self.now) word }
    {
        if word == 0 || slots == 0 {
            return false;
        }
        self.is_closed(self.size.members(), word, slots)
    }

    // Whether a crew with fewer slots than `slots` may have `front` as its members up to `i`. The two are given apart, since `slots` is tried with the words of others while `front` stays.
    fn may_part(&self, i: u8, front: u64, slots: u64) -> bool
        requires { i < self.now.size.members }
        ensures { result ≡ fits (rows_grid self.now) i front slots }
    {
        if slots == 0 {
            return false;
        }
        self.is_closed(i + 1, front, slots)
    }

    // The first crew that has `front` as its members up to `i`; these share `slots`.
    fn complete(&self, i: u8, front: u64, slots: u64) -> Option<Crew>
        requires within { i < self.now.size.members }
        requires shared { slots ≡ shared_slots (rows_grid self.now) front }
        ensures { option_map sides result ≡ crew_of (pass (rows_grid self.now) i front self.now.size.members).0 (pass (rows_grid self.now) i front self.now.size.members).1 }
    {
        let (members, slots) = (i + 1..self.size.members()).fold(
            (front, slots),
            |(members, slots), k| {
                let fewer = slots & self.word(k);
                if self.may_part(i, front, fewer) {
                    (members | only(k), fewer)
                } else {
                    (members, slots)
                }
            },
        );
        Crew::new(members, slots)
    }

    // Whether every number below `end` that has all of `slots` is in `front`.
    fn is_closed(&self, end: u8, front: u64, slots: u64) -> bool
        requires { end ≤ self.now.size.members }
        ensures { result ≡ closed_below (rows_grid self.now) end front slots }
    {
        (0..end).all(|k| holds(front, k) || slots & self.word(k) != slots)
    }

    // The slot word of number `k`.
    fn word(&self, k: u8) -> u64
        requires { k < 64 }
        ensures { result ≡ slot_word (rows_grid self.now) k }
    {
        self.words[k as usize]
    }
}
