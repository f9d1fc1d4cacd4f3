// A size is made once, and tells its two numbers.
ghost use Rattle.std.specs.Prelude.{◌≡◌};
ghost use Rattle.tables.specs.Sizes.{told, sizing};

use super::Size;
use crate::refusals::SizeRefusal;
use crate::table::Table;

impl Size {
    /// The size of `members` and `slots`, or a refusal where one of them is not 1 to 64.
    pub fn new(members: u8, slots: u8) -> Result<Size, SizeRefusal>
        ensures { told result ≡ sizing members slots }
    {
        if members < 1 || members > 64 || slots < 1 || slots > 64 {
            return Err(SizeRefusal::OutOfRange);
        }
        Ok(Size { members, slots })
    }

    /// The size of a table.
    pub fn of<T: Table>(table: &T) -> Size
        ensures members { result.members ≡ (T.Table.grid table.now).members }
        ensures slots { result.slots ≡ (T.Table.grid table.now).slots }
    {
        Size {
            members: table.members(),
            slots: table.slots(),
        }
    }

    /// How many members there are.
    pub fn members(&self) -> u8
        ensures { result ≡ self.now.members }
    {
        self.members
    }

    /// How many slots there are.
    pub fn slots(&self) -> u8
        ensures { result ≡ self.now.slots }
    {
        self.slots
    }
}
