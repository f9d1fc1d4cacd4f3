// The walk against a plain test of every set of members: on small random tables, from the start and from arbitrary words.
use crate::generator::Generator;
use crate::mismatches::Mismatches;
use crate::plain::{Marked, comes_before, small_size};
use anyhow::anyhow;
use finders::limit::Limit;
use sessions::tour::list_into;
use std::fmt;
use tables::table::Table;

// What was compared, under the names of this trial; no other trial counts the same.
#[derive(Clone, Copy, Default)]
struct Tally {
    tables: u32,
    walks: u32,
    crews: u32,
    mismatches: Mismatches,
}

impl fmt::Display for Tally {
    fn fmt<W: fmt::Write>(&self, f: &mut fmt::Formatter<W>) -> fmt::Result {
        write!(
            f,
            "{} tables, {} walks, {} crews compared, {}",
            self.tables, self.walks, self.crews, self.mismatches
        )
    }
}

impl Tally {
    // Walks from `word` to the end and compares each crew, their order and their number.
    fn try_walk(&mut self, both: &mut Marked, word: u64) {
        both.listing.seek(word);
        // The crews given are counted in the loop: the count is needed behind it, and each crew is compared with the one before.
        let mut given = 0u32;
        let mut last = None;
        for _ in 0..200u32 {
            let Some(crew) = both.listing.next() else {
                break;
            };
            let repeated = last.is_some_and(|last| !comes_before(last, crew.members()));
            self.mismatches.expect(
                both.plain.is_crew(crew.members(), crew.slots())
                    && !comes_before(crew.members(), word)
                    && !repeated,
            );
            last = Some(crew.members());
            given = given.saturating_add(1);
        }
        self.mismatches
            .expect(given as usize == both.plain.crews_from(word));
        self.crews = self.crews.saturating_add(given);
        self.walks = self.walks.saturating_add(1);
    }

    // The whole list at once: as many crews as the plain test counts, each as `next` gives it, and then none.
    fn try_list(&mut self, both: &mut Marked) {
        // The places that `list_into` writes are its caller's; 130 are more than the crews of any such table.
        let mut places = [None; 130];
        list_into(&mut both.listing, &mut places);
        both.listing.rewind();
        for place in places.iter() {
            self.mismatches.expect(*place == both.listing.next());
        }
        self.mismatches.expect(places.iter().flatten().count() == both.plain.crews_from(u64::MAX));
        self.walks = self.walks.saturating_add(1);
    }

    // One table, walked from its start, from the word 0 and from arbitrary words.
    fn try_table(&mut self, limit: Limit, generator: &mut Generator) {
        let Some(size) = small_size(generator) else {
            return;
        };
        let mut both = Marked::drawn(size, limit, generator);
        self.try_list(&mut both);
        self.try_walk(&mut both, u64::MAX);
        self.try_walk(&mut both, 0);
        for _ in 0..24u32 {
            let word = generator.word();
            self.try_walk(&mut both, word >> 57);
            self.try_walk(&mut both, word);
        }
        self.tables = self.tables.saturating_add(1);
    }
}

/// Tries many tables and prints what was compared.
pub fn run(rt: &HostRuntime) -> anyhow::Result<()> {
    let mut tally = Tally::default();
    let mut generator = Generator::new(2026);
    let limit = Limit::try_from(0).map_err(|_| anyhow!("the limit is refused"))?;
    for _ in 0..400u32 {
        tally.try_table(limit, &mut generator);
    }
    println!(rt; "walk: {tally}")?;
    Ok(())
}
