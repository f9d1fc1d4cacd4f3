// Walks many crews of a table of full size, so that the time of one `next` can be taken from outside: `time out/pace`.
#![tactic(auto)]

use anyhow::anyhow;
use finders::limit::Limit;
use rosters::bit_roster::BitRoster;
use sessions::listing::Listing;
use sessions::marking::Marking;
use tables::size::Size;
use tables::table::{Roster, Table};

// How many crews are walked.
const CREWS: u32 = 200000;

// A pseudo-random number after `seed`.
fn shuffled(seed: u64) -> u64 {
    seed.wrapping_mul(6364136223846793005)
        .wrapping_add(1442695040888963407)
}

// A session on a roster of 64 by 64 in which about half of the pairs are marked.
fn half_marked(size: Size) -> Marking<BitRoster> {
    let mut session = Marking::new(BitRoster::new(size));
    let mut seed = 1;
    for i in 0..64u8 {
        for j in 0..64u8 {
            seed = shuffled(seed);
            if seed >> 63 == 1 {
                let _ = session.mark(i, j);
            }
        }
    }
    session
}

// Walks the crews and gives their count and the exclusive or of their member words.
fn walked(session: &mut Listing<BitRoster>) -> (u32, u64) {
    (0..CREWS)
        .map_while(|_| session.next())
        .fold((0, 0), |(count, mixed), crew| {
            (count.saturating_add(1), mixed ^ crew.members())
        })
}

fn main(rt: HostRuntime) -> anyhow::Result<()> {
    let size = Size::new(64, 64).map_err(|_| anyhow!("no size"))?;
    let limit = Limit::try_from(0).map_err(|_| anyhow!("no limit"))?;
    let mut session = half_marked(size).close(limit);
    let (count, mixed) = walked(&mut session);
    println!(rt; "{count} crews, mixed {mixed}")?;
    Ok(())
}
