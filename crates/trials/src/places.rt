// Boards against a plain list of lines: pseudo-random puts and takes of each kind, on boards of few and many places.
ghost use Rattle.std.specs.Prelude.{◌<◌, length, IfSome};

use crate::generator::Generator;
use crate::kinds::Kind;
use crate::mismatches::Mismatches;
use boards::board::Board;
use boards::metres::MetresLine;
use boards::refusals::PutRefusal;
use ranking::crew_line::CrewLine;
use ranking::seat_line::SeatLine;
use std::alloc::{AllocError, Global};
use std::fmt;

// What was compared, under the names of this trial; no other trial counts the same.
#[derive(Clone, Copy, Default)]
struct Tally {
    calls: u32,
    full: u32,
    present: u32,
    absent: u32,
    mismatches: Mismatches,
}

impl Tally {
    fn expect(&mut self, fits: bool) {
        self.calls = self.calls.saturating_add(1);
        self.mismatches.expect(fits);
    }
}

impl fmt::Display for Tally {
    fn fmt<W: fmt::Write>(&self, f: &mut fmt::Formatter<W>) -> fmt::Result {
        write!(
            f,
            "{} answers compared, refused with 11: {}, with 12: {}, with 13: {}, {}",
            self.calls, self.full, self.present, self.absent, self.mismatches
        )
    }
}

// A board, and the lines that should be on it, in no order.
#[derive(Drop)]
struct Trial<'a, L: Kind> {
    board: Board<'a, L>,
    places: usize,
    lines: Vec<L>,
    tally: &'a mut Tally,
}

impl<'a, L: Kind> Trial<'a, L> {
    fn new(heap: Global, memory: &'a mut [L], tally: &'a mut Tally) -> Trial<'a, L> {
        let places = memory.len().min(4096);
        Trial {
            board: Board::new(memory),
            places,
            lines: Vec::new(heap),
            tally,
        }
    }

    // How many lines should come before `line`.
    fn before(&self, line: &L) -> usize {
        self.lines
            .iter()
            .filter(|other| other.goes_first(line))
            .count()
    }

    // Where `line` itself is among the lines that should be there.
    fn itself(&self, line: &L) -> Option<usize>
        ensures { IfSome result (λ k. k < length self.now.lines.items) }
    {
        self.lines
            .iter()
            .position(|other| !other.goes_first(line) && !line.goes_first(other))
    }

    fn put(&mut self, line: L) -> Result<(), AllocError> {
        let itself = self.itself(&line);
        let room = self.lines.len() < self.places;
        match self.board.put(line) {
            Ok(()) => {
                self.tally.expect(itself.is_none() && room);
                self.lines.push(line)?;
            }
            Err(PutRefusal::Present) => {
                self.tally.present = self.tally.present.saturating_add(1);
                self.tally.expect(itself.is_some());
            }
            Err(PutRefusal::Full) => {
                self.tally.full = self.tally.full.saturating_add(1);
                self.tally.expect(itself.is_none() && !room);
            }
        }
        Ok(())
    }

    fn take(&mut self, line: &L) {
        let itself = self.itself(line);
        if self.board.take(line).is_ok() {
            self.tally.expect(itself.is_some());
            if let Some(k) = itself {
                let _ = self.lines.swap_remove(k);
            }
        } else {
            self.tally.absent = self.tally.absent.saturating_add(1);
            self.tally.expect(itself.is_none());
        }
    }

    // The place of `line`, and the line in that place.
    fn place(&mut self, line: &L) {
        let itself = self.itself(line);
        match self.board.place(line) {
            Some(place) => {
                let before = self.before(line);
                self.tally
                    .expect(itself.is_some() && place == before.saturating_add(1));
                let same = self.board.at(place).is_some_and(|other| !other.goes_first(line)
                    && !line.goes_first(&other));
                self.tally.expect(same);
            }
            None => self.tally.expect(itself.is_none()),
        }
        let past = self.lines.len().saturating_add(1);
        self.tally.expect(self.board.at(0).is_none() && self.board.at(past).is_none());
    }

    // Puts and takes drawn lines.
    fn play(&mut self, calls: u32, generator: &mut Generator) -> Result<(), AllocError> {
        for _ in 0..calls {
            let Some(line) = L::drawn(generator) else {
                break;
            };
            if generator.below(8) == 0 {
                self.take(&line);
            } else {
                self.put(line)?;
            }
            self.place(&line);
        }
        self.tally.expect(
            self.board.len() == self.lines.len() && self.board.capacity() == self.places,
        );
        Ok(())
    }
}

// A board over `count` lines of memory, all of them `filler` at first; what lies behind place 4,096 must stay so.
fn try_board<L: Kind>(
    heap: Global,
    filler: L,
    count: usize,
    calls: u32,
    tally: &mut Tally,
) -> Result<(), AllocError> {
    let mut memory = Vec::new(heap);
    memory.resize(count, filler)?;
    let mut generator = Generator::new(count as u64);
    Trial::new(heap, memory.as_mut_slice(), tally).play(calls, &mut generator)?;
    for other in memory.iter().skip(4096) {
        tally.expect(!other.goes_first(&filler) && !filler.goes_first(other));
    }
    Ok(())
}

// Boards of no place, one, seven and 4,096, and memory of 5,000 lines.
fn try_kind<L: Kind>(heap: Global, filler: L, tally: &mut Tally) -> Result<(), AllocError> {
    for (count, calls) in [(0, 100), (1, 300), (7, 1000), (4096, 6000), (5000, 6000)] {
        try_board(heap, filler, count, calls, tally)?;
    }
    Ok(())
}

/// Tries each kind of line and prints what was compared.
pub fn run(rt: &HostRuntime) -> anyhow::Result<()> {
    let mut tally = Tally::default();
    let mut generator = Generator::new(7);
    try_kind(
        rt.alloc(),
        MetresLine {
            member: 0,
            metres: 0,
        },
        &mut tally,
    )?;
    if let Some(line) = CrewLine::drawn(&mut generator) {
        try_kind(rt.alloc(), line, &mut tally)?;
    }
    if let Some(line) = SeatLine::drawn(&mut generator) {
        try_kind(rt.alloc(), line, &mut tally)?;
    }
    println!(rt; "boards: {tally}")?;
    Ok(())
}
