// Why a buffer is refused, and the number of the reason.
ghost use Rattle.prints.specs.Refusals.{buffer_number};

use words::refusal::Refusal;

/// A buffer that a print does not fit.
#[derive(Clone, Copy, PartialEq, Eq, Debug)]
pub enum BufferRefusal {
    TooShort = 6,
}

impl Refusal for BufferRefusal {
    ghost code = { buffer_number };

    fn number(&self) -> u8 {
        *self as u8
    }
}
