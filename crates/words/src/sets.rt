// A word as a set: bit i, worth 2^i, stands for number i.
ghost use Rattle.std.specs.Prelude.{◌≡◌, ◌-◌, ◌^◌, min};
ghost use Rattle.words.specs.Bits.{bit, lone};

/// Whether the word holds number `i`; it holds none of 64 or above.
pub fn holds(word: u64, i: u8) -> bool
    ensures { result ≡ bit word i }
{
    if i < 64 { (word >> i) & 1 == 1 } else { false }
}

/// The word that holds number `i` alone, or nothing where `i` is 64 or above.
pub fn only(i: u8) -> u64
    ensures { result ≡ lone i }
{
    if i < 64 { 1 << i } else { 0 }
}

/// The word of all numbers below `n`, where 64 and above mean all of them.
pub fn below(n: u8) -> u64
    ensures { result ≡ 2 ^ min n 64 - 1 }
{
    if n < 64 { (1 << n) - 1 } else { u64::MAX }
}
