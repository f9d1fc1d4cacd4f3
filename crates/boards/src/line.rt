// The kinds of lines that a board can keep: each kind has an order, and the order keeps to laws.
ghost use Rattle.std.specs.Prelude.{◌≡◌};
ghost use Rattle.std.specs.declared.cmp.Ordering.{Ordering};
ghost use Rattle.boards.specs.Orders.{Laws};

use std::cmp::Ordering;

/// A kind of line. Its order says of two lines which comes first.
pub trait Line: Copy {
    // How one line stands to another: `Less` says that the first comes before the second.
    ghost order: { Self → Self → Ordering };

    /// How this line stands to the other: `Less` says that this one comes first.
    fn compare(&self, other: &Self) -> Ordering
        ensures { result ≡ order self.now other.now };

    // Same only for equal lines, seen from the other line the other way round, and carried over a third line.
    ghost lawful: { Laws order };
}
