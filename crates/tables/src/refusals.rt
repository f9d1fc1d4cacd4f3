// Why a size or a change of a roster is refused, and the number of each reason.
ghost use Rattle.tables.specs.Refusals.{size_number, roster_number};

use words::refusal::Refusal;

/// A size that no table has.
#[derive(Clone, Copy, PartialEq, Eq, Debug)]
pub enum SizeRefusal {
    OutOfRange = 3,
}

impl Refusal for SizeRefusal {
    ghost code = { size_number };

    // There is one reason, so the cast names it.
    fn number(&self) -> u8 {
        SizeRefusal::OutOfRange as u8
    }
}

/// A change that a roster does not take.
#[derive(Clone, Copy, PartialEq, Eq, Debug)]
pub enum RosterRefusal {
    NoMember = 1,
    NoSlot = 2,
    NoPlace = 7,
}

impl Refusal for RosterRefusal {
    ghost code = { roster_number };

    fn number(&self) -> u8 {
        *self as u8
    }
}
