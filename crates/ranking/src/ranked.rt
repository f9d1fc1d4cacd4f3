// A crew as a line, ranked one way or another.
ghost use Rattle.std.specs.Prelude.{◌≡◌};
ghost use Rattle.std.specs.Cmp.{IsTotalOrder, po};
ghost use Rattle.std.specs.Cmp.Rules.{comparing};
ghost use Rattle.std.specs.Ordering.{as_partial_cmp};
ghost use Rattle.std.specs.declared.cmp.Ordering.{Ordering};
ghost use Rattle.std.specs.declared.cmp.Ordering.TheVariants.{Equal};
ghost use Rattle.std.proofs.Common.{rules};
ghost use Rattle.ranking.specs.CrewOrders.{tells_apart};
ghost use Rattle.tables.specs.declared.crew.Crew.{Crew};

use crate::crew_made::CrewMade;
use boards::line::Line;
use std::cmp::Ordering;
use std::fmt;
use std::marker::PhantomData;
use tables::crew::Crew;

// Crews are ranked in more than one way, so none of these orders is the `Ord` of a crew; a line of crews has the `Ord` of its way.
/// A way to rank crews.
pub trait Ranking {
    /// What a line of crews ranked this way is called where it is shown to a programmer.
    const NAME: &'static str = "Ranked";

    // How one crew stands to another: `Less` says that the first comes first.
    ghost order: { Crew → Crew → Ordering };

    /// How crew `a` stands to crew `b`: `Less` says that `a` comes first.
    fn compare(a: &Crew, b: &Crew) -> Ordering
        ensures { result ≡ order a.now b.now };

    // It is a total order, and the same only of equal crews.
    ghost total: { IsTotalOrder order };

    ghost same: { (a b : Crew) → order a b ≡ Equal → a ≡ b };
}

/// A crew as a line in the order of `R`.
#[derive_where(Clone, Copy, PartialEq, Eq)]
pub struct Ranked<R> {
    crew: Crew,
    by: PhantomData<R>,
}

// By hand, since a derived one would call both kinds of lines `Ranked`.
impl<R: Ranking> fmt::Debug for Ranked<R> {
    fn fmt<W: fmt::Write>(&self, f: &mut fmt::Formatter<W>) -> fmt::Result {
        f.debug_struct(R::NAME).field("crew", &self.crew).finish()
    }
}

impl<R: Ranking> Ord for Ranked<R> {
    ghost use Rattle.ranking.specs.Made.{ranked_order, ranked_total};

    ghost cmp = { ranked_order R.order };

    ghost total = { ranked_total R.total R.same };

    ghost matches_partial_cmp = { Prim.search (comparing, rules) };

    ghost matches_eq = { λ x y. tells_apart R.total R.same x.crew y.crew };

    fn cmp(&self, other: &Ranked<R>) -> Ordering {
        R::compare(&self.crew, &other.crew)
    }
}

impl<R: Ranking> PartialOrd for Ranked<R> {
    ghost use Rattle.ranking.specs.Made.{ranked_order, ranked_total};

    ghost partial_cmp = { as_partial_cmp (ranked_order R.order) };

    ghost laws = { po (ranked_total R.total R.same) (λ x y. tells_apart R.total R.same x.crew y.crew) };

    fn partial_cmp(&self, other: &Ranked<R>) -> Option<Ordering> {
        Some(self.cmp(other))
    }
}

impl<R: Ranking> Line for Ranked<R> {
    ghost use Rattle.ranking.specs.Made.{ranked_order, ranked_laws};

    ghost order = { ranked_order R.order };

    ghost lawful = { ranked_laws R.total R.same };

    fn compare(&self, other: &Ranked<R>) -> Ordering {
        self.cmp(other)
    }
}

impl<R: Ranking> CrewMade for Ranked<R> {
    ghost use Rattle.ranking.specs.Made.{made, told};

    ghost made = { made };

    ghost told = { told };

    ghost back = { Prim.search rules };

    ghost again = { Prim.search rules };

    fn of(crew: &Crew) -> Ranked<R> {
        Ranked {
            crew: *crew,
            by: PhantomData,
        }
    }

    fn crew(&self) -> Crew {
        self.crew
    }
}
