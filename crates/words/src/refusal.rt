// A refusal answers with a number that is printed and told to whoever asked.
ghost use Rattle.std.specs.Prelude.{◌≡◌, ℕ};

// The number is what users are told. Each enum casts itself to it, since `as` takes an enum and no type parameter.
/// A reason for which a call is refused.
pub trait Refusal {
    ghost code: { Self → ℕ };

    /// The number of the refusal.
    fn number(&self) -> u8
        ensures { result ≡ code self.now };
}
