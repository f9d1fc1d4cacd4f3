// Steps from the beginning on, until the finder is done or refuses.
ghost use Rattle.std.specs.Prelude.{◌≡◌, ◌-◌, ◌^◌};
ghost use Rattle.finders.specs.Finder.{finding};
ghost use Rattle.sessions.specs.FindAll.{FoundAll, RuleStands};

use super::Listing;
use finders::finder::Step;
use finders::limit::Limit;
use finders::refusals::StepRefusal;
use tables::table::Table;

impl<T: Table> Listing<T> {
    /// A listing session of any table whose finder has stepped until it was done or refused, with that answer.
    pub fn find_all(table: T, limit: Limit) -> (Listing<T>, Result<(), StepRefusal>)
        ensures table { result.0.table ≡ table }
        ensures start { result.0.walk ≡ 2 ^ 64 - 1 }
        ensures limit { result.0.finder.limit ≡ limit }
        ensures all { FoundAll (T.Table.grid table) limit (finding result.0.finder) result.1 }
        ensures rule { RuleStands (T.Table.grid table) limit }
    {
        let mut listing = Listing::browse(table, limit);
        // No index is counted, and a step's answer says whether another follows: two arms, and no step to choose.
        loop {
            match listing.step() {
                Ok(Step::Worked) => {}
                Ok(Step::Done) => return (listing, Ok(())),
                Err(refusal) => return (listing, Err(refusal)),
            }
        }
    }
}
