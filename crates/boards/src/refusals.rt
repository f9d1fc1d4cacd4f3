// Why a board does not take a line or give one back, and the number of each reason.
ghost use Rattle.boards.specs.Refusals.{put_number, take_number};

use words::refusal::Refusal;

/// Why a line is not put on a board.
#[derive(Clone, Copy, PartialEq, Eq, Debug)]
pub enum PutRefusal {
    Full = 11,
    Present = 12,
}

impl Refusal for PutRefusal {
    ghost code = { put_number };

    fn number(&self) -> u8 {
        *self as u8
    }
}

/// Why a line is not taken from a board.
#[derive(Clone, Copy, PartialEq, Eq, Debug)]
pub enum TakeRefusal {
    Absent = 13,
}

impl Refusal for TakeRefusal {
    ghost code = { take_number };

    fn number(&self) -> u8 {
        TakeRefusal::Absent as u8
    }
}
