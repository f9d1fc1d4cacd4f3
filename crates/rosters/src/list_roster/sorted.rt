// Codes in increasing order: where one belongs, how it is put in and how it is taken out.
ghost use Rattle.std.specs.Prelude.{◌≡◌, ℕ, ◌<◌, ◌≤◌, length, replicate, slice_index};
ghost use Rattle.rosters.specs.Coded.{FirstPlace, put_in, take_out};

// An array of a fixed size with the number of those in use beside it in the roster: no heap is used, and the unused places are part of what is promised.
/// The places for codes, those in use first. One more than can be used, so that an unused one always comes last.
#[derive(Drop)]
pub struct Codes {
    pub places: [u16; 257],
}

impl Codes {
    /// The places with none in use.
    pub fn new() -> Codes
        ensures { result.places ≡ replicate 257 65535 }
    {
        Codes {
            places: [65535u16; 257],
        }
    }
}

// The places come whole and with the number of those in use, here and below: the place that is found may be the unused one behind these, and a code that is put in or taken out moves it.
/// The first of the `used` places that holds `code` or more, or `used` where all hold less.
pub fn first_place(places: &[u16], used: usize, code: u16) -> usize
    requires { used ≤ length places.now }
    ensures { FirstPlace places.now used code result }
{
    places[..used]
        .iter()
        .position(|held| *held >= code)
        .unwrap_or(used)
}

/// Puts `code` in at place `at`, and moves the codes from there on up by one place.
pub fn put_in(places: &mut [u16], used: usize, at: usize, code: u16)
    requires within { at ≤ used }
    requires room { used < length places.old }
    ensures { (k : ℕ) → slice_index places.new k ≡ put_in places.old used at code k }
{
    places.copy_within(at..used, at + 1);
    places[at] = code;
}

/// Takes out the code at place `at`, and moves the codes after it down by one place, the unused one that follows too.
pub fn take_out(places: &mut [u16], used: usize, at: usize)
    requires within { at < used }
    requires room { used < length places.old }
    ensures { (k : ℕ) → slice_index places.new k ≡ take_out places.old used at k }
{
    places.copy_within(at + 1..used + 1, at);
}
