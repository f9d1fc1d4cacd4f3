// Small tables as a plain test sees them: every set of members is tried.
use crate::generator::Generator;
use finders::limit::Limit;
use rosters::bit_roster::BitRoster;
use sessions::listing::Listing;
use sessions::marking::Marking;
use tables::size::Size;
use tables::table::{Roster, Table};

/// Whether the word holds number `i`, which is taken as 63 where it is above.
pub fn holds(word: u64, i: u8) -> bool {
    (word >> i.min(63)) & 1 == 1
}

/// The word of the numbers below 64 that pass the test.
pub fn word_of<F: Fn(u8) -> bool>(test: F) -> u64
    requires { F.IsAlwaysCallable test }
{
    let mut word = 0;
    for i in 0..64u8 {
        if test(i) {
            word |= 1 << i;
        }
    }
    word
}

/// Whether `a` holds the least number at which the two differ: written out, since it is compared with the order that the crates have.
pub fn comes_before(a: u64, b: u64) -> bool {
    (0..64u8)
        .find(|i| holds(a, *i) != holds(b, *i))
        .is_some_and(|i| holds(a, i))
}

// Seven rows at the most: a Vec of them would take an allocator and could fail, and say no more.
/// The slots of each of at most seven members.
#[derive(Drop)]
pub struct Plain {
    pub members: u8,
    pub slots: u8,
    pub rows: [u64; 7],
}

impl Plain {
    // The slots of member `i`.
    fn row(&self, i: u8) -> u64 {
        self.rows.get(usize::from(i)).copied().unwrap_or(0)
    }

    /// The slots that the members of `set` share.
    pub fn shared(&self, set: u64) -> u64 {
        (0..7u8)
            .filter(|i| holds(set, *i))
            .fold(u64::MAX, |shared, i| shared & self.row(i))
    }

    /// The members of slot `j`.
    pub fn column(&self, j: u8) -> u64 {
        word_of(|i| holds(self.row(i), j))
    }

    /// Whether `set` and `slots` are a crew: neither empty, all shared slots, and nobody else has them.
    pub fn is_crew(&self, set: u64, slots: u64) -> bool {
        set != 0
            && slots != 0
            && slots == self.shared(set)
            && set >> self.members.min(63) == 0
            && (0..self.members).all(|i| holds(set, i) || self.row(i) & slots != slots)
    }

    /// How many crews are not before `word`.
    pub fn crews_from(&self, word: u64) -> usize {
        (1..128u64)
            .filter(|set| self.is_crew(*set, self.shared(*set)) && !comes_before(*set, word))
            .count()
    }
}

/// A size of at most seven members and slots, where the generator gives one.
pub fn small_size(generator: &mut Generator) -> Option<Size> {
    let members = generator.below(7);
    let slots = generator.below(7);
    Size::new(members.saturating_add(1), slots.saturating_add(1)).ok()
}

/// A listing session, and a plain table with the same pairs.
#[derive(Drop)]
pub struct Marked {
    pub listing: Listing<BitRoster>,
    pub plain: Plain,
}

impl Marked {
    /// A session of that size and limit on random pairs.
    pub fn drawn(size: Size, limit: Limit, generator: &mut Generator) -> Marked {
        let mut session = Marking::new(BitRoster::new(size));
        let mut plain = Plain {
            members: size.members(),
            slots: size.slots(),
            rows: [0; 7],
        };
        for (i, row) in (0..size.members()).zip(plain.rows.iter_mut()) {
            for j in 0..size.slots() {
                if generator.below(4) != 0 {
                    *row |= 1 << j;
                    let _ = session.mark(i, j);
                }
            }
        }
        let listing = session.close(limit);
        Marked { listing, plain }
    }
}
