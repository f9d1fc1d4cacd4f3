// The three kinds of lines, drawn at random, and their orders as a plain test has them.
use crate::generator::Generator;
use crate::plain::comes_before;
use boards::line::Line;
use boards::metres::MetresLine;
use ranking::crew_line::CrewLine;
use ranking::crew_made::CrewMade;
use ranking::seat_line::SeatLine;
use tables::crew::Crew;

// The plain orders are written out: what is compared with the kinds' own orders may share no code with them.
/// A kind of line that can be drawn, with a plain order.
pub trait Kind: Line {
    /// A line drawn at random.
    fn drawn(generator: &mut Generator) -> Option<Self>;

    /// Whether this line comes before the other.
    fn goes_first(&self, other: &Self) -> bool;
}

impl Kind for MetresLine {
    fn drawn(generator: &mut Generator) -> Option<MetresLine> {
        Some(MetresLine {
            member: generator.below(255),
            metres: u32::from(generator.below(200)),
        })
    }

    fn goes_first(&self, other: &MetresLine) -> bool {
        if self.metres == other.metres {
            self.member < other.member
        } else {
            self.metres > other.metres
        }
    }
}

// The line of a crew of words up to 127.
fn drawn_line<L: CrewMade>(generator: &mut Generator) -> Option<L> {
    let members = u64::from(generator.below(127)).saturating_add(1);
    let slots = u64::from(generator.below(127)).saturating_add(1);
    Crew::new(members, slots).map(|crew| L::of(&crew))
}

fn crew_goes_first(a: &Crew, b: &Crew) -> bool {
    if a.members() == b.members() {
        comes_before(a.slots(), b.slots())
    } else {
        comes_before(a.members(), b.members())
    }
}

// How many of its lowest eight numbers a word holds.
fn counted(word: u64) -> u64 {
    (0..8u32).fold(0, |count, i| count.wrapping_add((word >> i) & 1))
}

// The members times the slots of a drawn crew, each counted one by one.
fn seats(crew: &Crew) -> u64 {
    counted(crew.members()).wrapping_mul(counted(crew.slots()))
}

impl Kind for CrewLine {
    fn drawn(generator: &mut Generator) -> Option<CrewLine> {
        drawn_line(generator)
    }

    fn goes_first(&self, other: &CrewLine) -> bool {
        crew_goes_first(&self.crew(), &other.crew())
    }
}

impl Kind for SeatLine {
    fn drawn(generator: &mut Generator) -> Option<SeatLine> {
        drawn_line(generator)
    }

    fn goes_first(&self, other: &SeatLine) -> bool {
        let a = self.crew();
        let b = other.crew();
        if seats(&a) == seats(&b) {
            crew_goes_first(&a, &b)
        } else {
            seats(&a) > seats(&b)
        }
    }
}
