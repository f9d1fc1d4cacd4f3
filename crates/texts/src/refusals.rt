// Why a text is refused, and the number of each reason.
ghost use Rattle.std.specs.Prelude.{◌≡◌};
ghost use Rattle.texts.specs.Refusals.{cause_number};
ghost use Rattle.texts.specs.declared.refusals.Cause.TheVariants.{Size, Roster};

use tables::refusals::{RosterRefusal, SizeRefusal};
use words::refusal::Refusal;

/// Why a line of a text is refused.
#[derive(Clone, Copy, PartialEq, Eq, Debug)]
pub enum Cause {
    /// The line has none of the forms that a line may have in its place.
    Form,
    /// The line tells a size that no table has.
    Size(SizeRefusal),
    /// The roster refused what the line asks for.
    Roster(RosterRefusal),
}

impl Refusal for Cause {
    ghost code = { cause_number };

    fn number(&self) -> u8 {
        match self {
            // A number by hand: two other variants hold a refusal, and an enum with such variants is no number.
            Cause::Form => 5,
            Cause::Size(refusal) => refusal.number(),
            Cause::Roster(refusal) => refusal.number(),
        }
    }
}

// Both conversions are written out: a derived one would not say in `from_gives` which cause a `?` answers with.
impl From<SizeRefusal> for Cause {
    ghost from_gives = { λ refusal cause. cause ≡ Size refusal };

    fn from(refusal: SizeRefusal) -> Cause {
        Cause::Size(refusal)
    }
}

impl From<RosterRefusal> for Cause {
    ghost from_gives = { λ refusal cause. cause ≡ Roster refusal };

    fn from(refusal: RosterRefusal) -> Cause {
        Cause::Roster(refusal)
    }
}

/// The first line of a text that is refused: its number, counted from 1, where its first byte stands in the text, counted from 0, and why.
#[derive(Clone, Copy, PartialEq, Eq, Debug)]
pub struct TextFault {
    pub line: usize,
    pub byte: usize,
    pub cause: Cause,
}

impl Refusal for TextFault {
    ghost code = { λ f. cause_number f.cause };

    fn number(&self) -> u8 {
        self.cause.number()
    }
}
