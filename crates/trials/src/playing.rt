// Plays marks and clears on a roster and on its model, and compares them after each call.
use crate::generator::Generator;
use crate::mismatches::Mismatches;
use crate::model::Model;
use tables::refusals::RosterRefusal;
use tables::table::{Roster, Table};
use words::refusal::Refusal;

// The counts have names of their own, since no other trial counts the same.
/// What was counted in the calls that were compared.
#[derive(Clone, Copy, Default)]
pub struct Counts {
    pub calls: u32,
    pub no_member: u32,
    pub no_slot: u32,
    pub no_place: u32,
    pub mismatches: Mismatches,
}

impl Counts {
    // Counts a call and its answer, and a mismatch where the model answers otherwise or its refusal has another number.
    fn count(&mut self, answer: Result<(), RosterRefusal>, expected: Result<(), RosterRefusal>) {
        self.calls = self.calls.wrapping_add(1);
        let told = answer.map_err(|refusal| refusal.number());
        match told {
            Err(1) => self.no_member = self.no_member.wrapping_add(1),
            Err(2) => self.no_slot = self.no_slot.wrapping_add(1),
            Err(7) => self.no_place = self.no_place.wrapping_add(1),
            _ => {}
        }
        self.mismatches
            .expect(told == expected.map_err(plain_number));
    }

    /// Plays `calls` marks and clears, two marks for each clear or so, and compares every answer, every word and the free places.
    pub fn play<R: Roster>(&mut self, roster: &mut R, model: &mut Model, calls: u32, seed: u64) {
        let mut generator = Generator::new(seed);
        for _ in 0..calls {
            let member = narrowed(&mut generator, model.view.members);
            let slot = narrowed(&mut generator, model.view.slots);
            if generator.below(3) == 0 {
                self.count(roster.clear(member, slot), model.clear(member, slot));
            } else {
                self.count(roster.mark(member, slot), model.mark(member, slot));
            }
            self.compare(roster, model);
            self.mismatches.expect(roster.free_places() == model.free());
        }
    }

    /// Compares the size and every word with the model, those of numbers that are out of range too.
    pub fn compare<T: Table>(&mut self, table: &T, model: &Model) {
        self.mismatches.expect(
            table.members() == model.view.members && table.slots() == model.view.slots,
        );
        // Each number asks for two words, and each difference counts, so this is a loop and no `all`.
        for i in 0..66u8 {
            self.mismatches
                .expect(table.slot_word(i) == model.slot_word(i));
            self.mismatches
                .expect(table.member_word(i) == model.member_word(i));
        }
    }
}

// The number of a refusal, written out: the tried code's own numbers are compared with it.
fn plain_number(refusal: RosterRefusal) -> u8 {
    match refusal {
        RosterRefusal::NoMember => 1,
        RosterRefusal::NoSlot => 2,
        RosterRefusal::NoPlace => 7,
    }
}

// A number that is mostly below `limit`, or one or more above it, or any up to 255.
fn narrowed(generator: &mut Generator, limit: u8) -> u8 {
    match generator.below(16) {
        0 => generator.below(255),
        1 => limit,
        _ => generator.below(limit),
    }
}
