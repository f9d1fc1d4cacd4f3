// A plain model of a roster under layers: a truth value for each pair of the roster at the bottom, and a count of free places.
use crate::plain::word_of;
use std::alloc::{AllocError, Global};
use tables::refusals::RosterRefusal;

// A member and a slot are two numbers here as in the calls that are compared.
/// Which part of the roster at the bottom the topmost layer shows, and whether members and slots are exchanged there.
#[derive(Clone, Copy)]
pub struct View {
    pub members: u8,
    pub slots: u8,
    pub first_member: u8,
    pub first_slot: u8,
    pub turned: bool,
}

impl View {
    // The numbers of members and slots are written out where a view is made: what is compared may not be asked of the code that is tried.
    /// All of a roster.
    pub fn whole(members: u8, slots: u8) -> View {
        View {
            members,
            slots,
            first_member: 0,
            first_slot: 0,
            turned: false,
        }
    }

    // Where the pair stands among the marks of the roster at the bottom; refused for a number that the view does not show.
    fn place(&self, member: u8, slot: u8) -> Result<usize, RosterRefusal> {
        if member >= self.members {
            return Err(RosterRefusal::NoMember);
        }
        if slot >= self.slots {
            return Err(RosterRefusal::NoSlot);
        }
        let (i, j) = if self.turned {
            (slot, member)
        } else {
            (member, slot)
        };
        let row = usize::from(self.first_member) + usize::from(i);
        let column = usize::from(self.first_slot) + usize::from(j);
        Ok(64 * row + column)
    }
}

/// The marks of the roster at the bottom, how many more there can be, and the view of them.
#[derive(Drop)]
pub struct Model {
    marks: Vec<bool>,
    free: u16,
    pub view: View,
}

impl Model {
    /// A model with nothing marked.
    pub fn new(heap: Global, view: View, free: u16) -> Result<Model, AllocError> {
        Ok(Model {
            marks: vec![in heap; false; 4096]?,
            free,
            view,
        })
    }

    /// How many more pairs can be marked.
    pub fn free(&self) -> u16 {
        self.free
    }

    /// Marks a pair, as the view numbers it.
    pub fn mark(&mut self, member: u8, slot: u8) -> Result<(), RosterRefusal> {
        let place = self.view.place(member, slot)?;
        if self.is_marked(member, slot) {
            return Ok(());
        }
        if self.free == 0 {
            return Err(RosterRefusal::NoPlace);
        }
        self.free -= 1;
        self.set(place, true);
        Ok(())
    }

    /// Clears a pair, as the view numbers it.
    pub fn clear(&mut self, member: u8, slot: u8) -> Result<(), RosterRefusal> {
        let place = self.view.place(member, slot)?;
        if self.is_marked(member, slot) {
            self.free = self.free.wrapping_add(1);
            self.set(place, false);
        }
        Ok(())
    }

    /// The slots of a member, as a word.
    pub fn slot_word(&self, member: u8) -> u64 {
        word_of(|slot| self.is_marked(member, slot))
    }

    /// The members of a slot, as a word.
    pub fn member_word(&self, slot: u8) -> u64 {
        word_of(|member| self.is_marked(member, slot))
    }

    fn is_marked(&self, member: u8, slot: u8) -> bool {
        self.view
            .place(member, slot)
            .is_ok_and(|place| self.marks.get(place).copied().unwrap_or(false))
    }

    fn set(&mut self, place: usize, told: bool) {
        if let Some(mark) = self.marks.get_mut(place) {
            *mark = told;
        }
    }
}
