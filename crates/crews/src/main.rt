// Reads a card from standard input and writes its crews, or its first fault.
#![tactic(auto)]

ghost use Rattle.std.specs.Prelude.{◌≡◌, ◌≤◌, length, take, IfOk, IfSome};

use cards::answer::answer;
use std::io;
use std::io::{Read, Write};

// The most bytes of a card that are read.
const CARD: usize = 32768;

// Reads `input` into `card` until it ends or `card` is full, and tells how many bytes came.
fn fill<R: Read>(mut input: R, card: &mut [u8]) -> io::Result<usize>
where
    R: Drop,
    ensures within { IfOk result (λ n. n ≤ length card.old) }
    ensures bytes { IfOk result (λ n. IfSome (R.remaining input) (λ xs. take n card.new ≡ take (length card.old) xs)) }
{
    let mut count = 0;
    // Each read but the last gives a byte or more, so that many reads are enough. A read is offered all the room that is left, so that an input of whole messages loses none of a long one.
    for _ in 0..card.len() {
        let more = input.read(&mut card[count..])?;
        if more == 0 {
            break;
        }
        count += more;
    }
    Ok(count)
}

fn main(rt: HostRuntime) -> io::Result<()> {
    let mut card = [0; CARD];
    let count = fill(rt.stdin(), &mut card)?;
    let shown = answer(rt.alloc(), &card[..count])?;
    rt.stdout().write_all(shown.as_slice())
}
