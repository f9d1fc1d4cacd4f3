// Sessions over tables: how many crews they give, and which comes first.
use finders::limit::Limit;
use sessions::listing::Listing;
use sessions::marking::Marking;
use std::fmt;
use tables::table::{Roster, Table};

/// What a session gave.
#[derive(Clone, Copy, Default)]
pub struct Opened {
    crews: usize,
    first_members: u64,
    first_slots: u64,
}

impl fmt::Display for Opened {
    fn fmt<W: fmt::Write>(&self, f: &mut fmt::Formatter<W>) -> fmt::Result {
        let crews = self.crews;
        let members = self.first_members;
        let slots = self.first_slots;
        write!(
            f,
            "{crews} crews, first of them members {members} and slots {slots}"
        )
    }
}

/// Marks a staircase and two more pairs in a marking session on the roster, closes it and goes through its crews.
pub fn mark_and_list<R: Roster + Drop>(roster: R, limit: Limit) -> Opened {
    let mut session = Marking::new(roster);
    for i in 0..8u8 {
        let _ = session.mark(i, i);
        let _ = session.mark(i, i + 1);
    }
    let _ = session.mark(0, 7);
    let _ = session.mark(7, 0);
    list(session.close(limit))
}

/// Goes through the crews of a table in a listing session.
pub fn browse<T: Table + Drop>(table: T, limit: Limit) -> Opened {
    list(Listing::browse(table, limit))
}

// Counts the crews ahead, at most a thousand.
fn list<T: Table + Drop>(mut session: Listing<T>) -> Opened {
    let first = session.next();
    let others = (0..999u32).map_while(|_| session.next()).count();
    first
        .map(|crew| Opened {
            crews: others.saturating_add(1),
            first_members: crew.members(),
            first_slots: crew.slots(),
        })
        .unwrap_or_default()
}
