// The finder: the crews found so far, how many steps have worked, and the most crews that may be found.
ghost use Rattle.std.specs.Prelude.{◌+◌, ◌*◌, ◌≤◌, length};
ghost use Rattle.finders.specs.Found.{DifferentMembers};

use crate::found::Found;
use crate::limit::Limit;

mod reading;
mod starters;
mod stepping;

// Two words and no `bool`: `true` would not say which of the two it is.
/// What a step that is not refused answers.
#[derive(Clone, Copy, PartialEq, Eq, Debug)]
pub enum Step {
    Worked,
    Done,
}

/// Finds the crews of a table step by step. Where it stands with the table is told by the crews found and the count of steps alone.
// What a limit and a found list keep to stands here again, of their values: a caller sees these alone.
#[derive(Drop)]
pub struct Finder {
    found: Found,
    worked: u32,
    limit: Limit,
    ghost within_limit: { length found ≤ limit },
    ghost limit_fits: { limit ≤ 512 },
    ghost apart: { DifferentMembers found },
    ghost steps_fit: { worked ≤ 64 + 64 * 512 },
}
