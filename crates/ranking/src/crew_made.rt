// A crew-made kind: a kind of line that is made from a crew alone and tells that crew back.
ghost use Rattle.std.specs.Prelude.{◌≡◌};
ghost use Rattle.tables.specs.declared.crew.Crew.{Crew};

use boards::line::Line;
use tables::crew::Crew;

// Not `From` and `Into`, which say what results there may be: the laws are about the one line of a crew and the one crew of a line.
/// A kind of line that is made from a crew alone, the same at every making.
pub trait CrewMade: Line {
    // The line of a crew, and the crew of a line.
    ghost made: { Crew → Self };

    ghost told: { Self → Crew };

    /// The line of `crew`.
    fn of(crew: &Crew) -> Self
        ensures { result ≡ made crew.now };

    /// The crew that the line was made from.
    fn crew(&self) -> Crew
        ensures { result ≡ told self.now };

    ghost back: { (c : Crew) → told (made c) ≡ c };

    ghost again: { (l : Self) → made (told l) ≡ l };
}
