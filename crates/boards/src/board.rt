// A board keeps lines of one kind, increasing, in memory that the caller lends.
ghost use Rattle.std.specs.Prelude.{◌≡◌, ◌≤◌, suc, false, [], length, drop, is_ok, if◌then◌else◌, Some, None};
ghost use Rattle.std.specs.List.Sorted.{IsSearchInRange, IsStrictlySortedBy-prop};
ghost use Rattle.boards.specs.Lines.{places, in_use, Increasing};

use crate::line::Line;
use crate::refusals::{PutRefusal, TakeRefusal};
use crate::slices::{insert_at, remove_at};

/// Lines of one kind in their order, each in a place counted from 1.
#[derive(Drop)]
pub struct Board<'a, L: Line> {
    // A slice and a count, since a board has no heap: its caller lends it the memory.
    lines: &'a mut [L],
    used: usize,
    pub ghost within: { used ≤ places lines.now },
    pub ghost increasing: { Increasing L.Line.order (in_use lines.now used) } by { IsStrictlySortedBy-prop L.Line.order (in_use lines.now used) },
}

impl<'a, L: Line> Board<'a, L> {
    ghost use Rattle.boards.specs.Boards.{lines_of, memory_of, loan_of};
    ghost use Rattle.boards.specs.Lines.{on_board, count_before, place_of, line_at, standing, put_answer, after_put, take_answer, after_take};

    /// A board with no lines. Its places are those of the memory lent, the first 4,096 at most.
    pub fn new(lines: &'a mut [L]) -> Board<'a, L>
        ensures empty { lines_of result ≡ [] }
        ensures kept { memory_of result ≡ lines.old }
        ensures named { loan_of result ≡ lines.entry.ghost_name }
    {
        Board { lines, used: 0 }
    }

    /// How many places there are.
    pub fn capacity(&self) -> usize
        ensures { result ≡ places (memory_of self.now) }
    {
        self.lines.len().min(4096)
    }

    /// How many lines there are.
    pub fn len(&self) -> usize
        ensures { result ≡ length (lines_of self.now) }
    {
        self.in_use().len()
    }

    // The lines in use.
    fn in_use(&self) -> &[L]
        ensures { result.now ≡ lines_of self.now }
    {
        &self.lines[..self.used]
    }

    // Where `line` stands among the lines, counted from 0, or where it would stand.
    fn find(&self, line: &L) -> Result<usize, usize>
        ensures stands { result ≡ standing L.Line.order (lines_of self.now) line.now }
        ensures within { IsSearchInRange result (length (lines_of self.now)) }
    {
        self.in_use().binary_search_by(|other| other.compare(line))
    }

    /// The place of `line`, counted from 1: one more than the number of lines before it. None where the line is not on the board.
    pub fn place(&self, line: &L) -> Option<usize>
        ensures found { result ≡ place_of L.Line.order (lines_of self.now) line.now }
        ensures counted { result ≡ (if on_board L.Line.order (lines_of self.now) line.now then Some (suc (count_before L.Line.order (lines_of self.now) line.now)) else None) }
    {
        self.find(line).ok().map(|at| at + 1)
    }

    /// The line in place `k`, counted from 1, or none where no line has that place.
    pub fn at(&self, k: usize) -> Option<L>
        ensures { result ≡ line_at (lines_of self.now) k }
    {
        self.in_use().get(k.checked_sub(1)?).copied()
    }

    /// Puts `line` on the board. It is refused if it is there, and then if no place is free.
    pub fn put(&mut self, line: L) -> Result<(), PutRefusal>
        ensures answer { result ≡ put_answer L.Line.order (lines_of self.old) (places (memory_of self.old)) line }
        ensures lines { lines_of self.new ≡ after_put L.Line.order (lines_of self.old) (places (memory_of self.old)) line }
        ensures refused { is_ok result ≡ false → memory_of self.new ≡ memory_of self.old }
        ensures behind { drop 4096 (memory_of self.new) ≡ drop 4096 (memory_of self.old) }
        ensures size { length (memory_of self.new) ≡ length (memory_of self.old) }
        ensures named { loan_of self.new ≡ loan_of self.old }
    {
        let Err(at) = self.find(&line) else {
            return Err(PutRefusal::Present);
        };
        if self.used == self.capacity() {
            return Err(PutRefusal::Full);
        }
        insert_at(&mut self.lines[..=self.used], at, line);
        self.used += 1;
        Ok(())
    }

    /// Takes `line` from the board, and its place is free again. It is refused if the line is not there.
    pub fn take(&mut self, line: &L) -> Result<(), TakeRefusal>
        ensures answer { result ≡ take_answer L.Line.order (lines_of self.old) line.now }
        ensures lines { lines_of self.new ≡ after_take L.Line.order (lines_of self.old) line.now }
        ensures refused { is_ok result ≡ false → memory_of self.new ≡ memory_of self.old }
        ensures behind { drop 4096 (memory_of self.new) ≡ drop 4096 (memory_of self.old) }
        ensures size { length (memory_of self.new) ≡ length (memory_of self.old) }
        ensures named { loan_of self.new ≡ loan_of self.old }
    {
        let Ok(at) = self.find(line) else {
            return Err(TakeRefusal::Absent);
        };
        remove_at(&mut self.lines[..self.used], at);
        self.used -= 1;
        Ok(())
    }
}
