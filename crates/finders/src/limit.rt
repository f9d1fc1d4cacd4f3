// The most crews that a found list may hold: 0 to 512.
ghost use Rattle.std.specs.Prelude.{◌≡◌, ◌≤◌, ℕ};

use crate::refusals::LimitRefusal;
use std::marker::Model;

/// The most crews that a found list may hold. It is made of a number by `Limit::try_from`, which refuses more than 512.
#[derive(Clone, Copy, PartialEq, Eq, Debug)]
pub struct Limit {
    crews: u16,
}

impl Model for Limit {
    ghost Value = { ℕ };

    ghost view = { λ l. l.crews };

    ghost invariant = { λ l. l.crews ≤ 512 };

    ghost inverse = { λ n. record { crews = n } };
}

impl TryFrom<u16> for Limit {
    ghost use Rattle.finders.specs.Limits.{Limits};

    type Error = LimitRefusal;

    ghost try_from_gives = { Limits };

    fn try_from(crews: u16) -> Result<Limit, LimitRefusal> {
        if crews > 512 {
            return Err(LimitRefusal::TooLarge);
        }
        Ok(Limit { crews })
    }
}

impl Limit {
    /// How many crews it admits.
    pub fn crews(&self) -> u16
        ensures number { result ≡ self.now }
        ensures few { result ≤ 512 }
    {
        self.crews
    }
}
