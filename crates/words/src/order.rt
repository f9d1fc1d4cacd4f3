// The order of words: of two different words the one that holds the least number at which they differ comes first.
ghost use Rattle.std.specs.Prelude.{◌≡◌, ℕ, ◌^◌, ◌<◌, not};
ghost use Rattle.words.specs.Order.{before, word_order, next_word, OrderLaws};

use crate::sets::holds;
use std::cmp::Ordering;

// A word is a `u64` in every call, and that type has an order of its own, so this one is no `Ord`.
/// How `a` stands to `b` in the order of words: `Less` says that `a` comes before `b`.
pub fn compare(a: u64, b: u64) -> Ordering
    ensures order { result ≡ word_order a b }
    ensures laws { OrderLaws }
{
    let least = (a ^ b).trailing_zeros();
    if least == 64 {
        Ordering::Equal
    } else if holds(a, least as u8) {
        Ordering::Less
    } else {
        Ordering::Greater
    }
}

/// Whether `a` comes before `b` in the order of words.
pub fn is_before(a: u64, b: u64) -> bool
    ensures { result ≡ before a b }
{
    compare(a, b).is_lt()
}

/// The word next after `word` in the order of words. The word 0 is the last of all: it gives 0.
pub fn successor(word: u64) -> u64
    ensures value { result ≡ next_word word }
    ensures next { 0 < word → (y : ℕ) → y < 2 ^ 64 → not (before y result) ≡ before word y }
{
    if word == 0 {
        return 0;
    }
    let top = 1u64 << (63 - word.leading_zeros());
    (word - top) | !(top | (top - 1))
}
