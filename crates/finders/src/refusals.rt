// Why a limit and a step are refused, and the number of each reason.
ghost use Rattle.finders.specs.Refusals.{limit_number, step_number};

use words::refusal::Refusal;

/// A limit that no found list has.
#[derive(Clone, Copy, PartialEq, Eq, Debug)]
pub enum LimitRefusal {
    TooLarge = 4,
}

impl Refusal for LimitRefusal {
    ghost code = { limit_number };

    fn number(&self) -> u8 {
        *self as u8
    }
}

/// A step that would find more crews than the limit admits.
#[derive(Clone, Copy, PartialEq, Eq, Debug)]
pub enum StepRefusal {
    Full = 8,
}

impl Refusal for StepRefusal {
    ghost code = { step_number };

    fn number(&self) -> u8 {
        *self as u8
    }
}
