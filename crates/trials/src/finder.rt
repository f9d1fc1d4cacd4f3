// The finder against a plain model of its rule, and against the crews among all sets of members: on small random tables with random limits.
use crate::generator::Generator;
use crate::mismatches::Mismatches;
use crate::plain::{Marked, Plain, holds, small_size};
use anyhow::anyhow;
use finders::finder::Step;
use finders::limit::Limit;
use finders::refusals::StepRefusal;
use rosters::bit_roster::BitRoster;
use sessions::listing::Listing;
use std::alloc::{AllocError, Global};
use std::fmt;
use tables::size::Size;
use tables::table::{Roster, Table};

// What was compared, under the names of this trial; no other trial counts the same.
#[derive(Clone, Copy, Default)]
struct Tally {
    tables: u32,
    steps: u32,
    done: u32,
    refused: u32,
    mismatches: Mismatches,
}

// A plain table, the crews found in it as their two words, how many steps have worked, and how many crews the slots alone gave.
#[derive(Drop)]
struct Model {
    plain: Plain,
    found: Vec<(u64, u64)>,
    steps: u64,
    starters: u64,
    limit: usize,
}

impl Model {
    fn has(&self, members: u64) -> bool {
        self.found.iter().any(|crew| crew.0 == members)
    }

    fn members_of(&self, k: u64) -> u64 {
        self.found.get(k as usize).map_or(0, |crew| crew.0)
    }

    // The members that the next step takes, or none where the model is done.
    fn wanted(&self) -> Option<u64> {
        let slots = u64::from(self.plain.slots);
        if self.steps < slots {
            return Some(self.plain.column(self.steps as u8));
        }
        let pair = self.steps - slots;
        if self.starters == 0 || pair == self.starters.wrapping_mul(self.found.len() as u64) {
            return None;
        }
        Some(self.members_of(pair / self.starters) & self.members_of(pair % self.starters))
    }

    // The answer of the next step, or that the memory for a found crew is missing.
    fn step(&mut self) -> Result<Result<Step, StepRefusal>, AllocError> {
        let Some(members) = self.wanted() else {
            return Ok(Ok(Step::Done));
        };
        if members != 0 && !self.has(members) {
            if self.found.len() >= self.limit {
                return Ok(Err(StepRefusal::Full));
            }
            self.found.push((members, self.plain.shared(members)))?;
            if self.steps < u64::from(self.plain.slots) {
                self.starters = self.starters.wrapping_add(1);
            }
        }
        self.steps = self.steps.wrapping_add(1);
        Ok(Ok(Step::Worked))
    }

    // Whether the session has found just the crews of the model.
    fn same_found(&self, session: &Listing<BitRoster>) -> bool {
        usize::from(session.found_len()) == self.found.len()
            && u64::from(session.steps()) == self.steps
            && session.found(session.found_len()).is_none()
            && (0..session.found_len()).zip(self.found.iter()).all(|(k, crew)| {
                session.found(k).is_some_and(|found| found.members() == crew.0
                    && found.slots() == crew.1)
            })
    }

    // Whether the session covers a pair as the model's crews do.
    fn same_cover(&self, session: &Listing<BitRoster>, i: u8, j: u8) -> bool {
        let wanted = self
            .found
            .iter()
            .any(|crew| holds(crew.0, i) && holds(crew.1, j));
        match session.cover(i, j) {
            Ok(Some(crew)) => wanted && holds(crew.members(), i) && holds(crew.slots(), j),
            Ok(None) => !wanted,
            Err(_) => i >= self.plain.members || j >= self.plain.slots,
        }
    }

    fn same_covers(&self, session: &Listing<BitRoster>) -> bool {
        (0..7u8).all(|i| (0..7u8).all(|j| self.same_cover(session, i, j)))
    }
}

impl fmt::Display for Tally {
    fn fmt<W: fmt::Write>(&self, f: &mut fmt::Formatter<W>) -> fmt::Result {
        write!(
            f,
            "{} tables, {} steps compared, {} done, {} refused with 8, {}",
            self.tables, self.steps, self.done, self.refused, self.mismatches
        )
    }
}

impl Tally {
    // Steps until both are done or refuse, and once more.
    fn play(
        &mut self,
        session: &mut Listing<BitRoster>,
        model: &mut Model,
    ) -> Result<Result<Step, StepRefusal>, AllocError> {
        let mut last = Ok(Step::Worked);
        for _ in 0..1200u32 {
            let wanted = model.step()?;
            let given = session.step();
            self.steps = self.steps.saturating_add(1);
            self.mismatches.expect(given == wanted);
            if last != Ok(Step::Worked) {
                self.mismatches.expect(given == last);
                if given == last {
                    break;
                }
            }
            last = given;
        }
        Ok(last)
    }

    fn try_table(&mut self, heap: Global, generator: &mut Generator) -> Result<(), AllocError> {
        let Some(size) = small_size(generator) else {
            return Ok(());
        };
        let crews = generator.below(40);
        let Ok(limit) = Limit::try_from(u16::from(crews)) else {
            return Ok(());
        };
        let Marked { mut listing, plain } = Marked::drawn(size, limit, generator);
        let mut model = Model {
            plain,
            found: Vec::new(heap),
            steps: 0,
            starters: 0,
            limit: usize::from(crews),
        };
        let last = self.play(&mut listing, &mut model)?;
        self.mismatches
            .expect(model.same_found(&listing) && model.same_covers(&listing));
        let all = model.plain.crews_from(u64::MAX);
        let done = last == Ok(Step::Done);
        self.mismatches.expect(done == (all <= usize::from(crews)));
        self.mismatches
            .expect(!done || usize::from(listing.found_len()) == all);
        self.tables = self.tables.saturating_add(1);
        if done {
            self.done = self.done.saturating_add(1);
        } else {
            self.refused = self.refused.saturating_add(1);
        }
        Ok(())
    }
}

// Every member free except in the slot of the same number, stepped until the finder is done or refuses.
fn busy_once(rt: &HostRuntime, count: u8, limit: Limit) -> anyhow::Result<()> {
    let size = Size::new(count, count).map_err(|_| anyhow!("the size is refused"))?;
    let mut roster = BitRoster::new(size);
    for i in 0..count {
        for j in 0..count {
            if i != j {
                let _ = roster.mark(i, j);
            }
        }
    }
    let (session, answer) = Listing::find_all(roster, limit);
    let found = session.found_len();
    let ended = match answer {
        Ok(()) => "done",
        Err(StepRefusal::Full) => "refused with 8",
    };
    println!(rt; "{count} by {count}, each busy once: {found} found, {ended}")?;
    Ok(())
}

/// Tries many tables and prints what was compared.
pub fn run(rt: &HostRuntime) -> anyhow::Result<()> {
    let mut tally = Tally::default();
    let mut generator = Generator::new(64);
    for _ in 0..600u32 {
        tally.try_table(rt.alloc(), &mut generator)?;
    }
    println!(rt; "finder: {tally}")?;
    let limit = Limit::try_from(512).map_err(|_| anyhow!("the limit is refused"))?;
    busy_once(rt, 9, limit)?;
    busy_once(rt, 10, limit)
}
