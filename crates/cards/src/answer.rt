// The answer to a card: its crews, or its first fault, as the text to be shown.
ghost use Rattle.std.specs.Prelude.{◌≡◌, ◌++◌, IfOk, OnOk};
ghost use Rattle.tables.specs.Crews.{ahead, crews};
ghost use Rattle.rosters.specs.Rosters.{bit_grid};
ghost use Rattle.prints.specs.Prints.{fault_text};
ghost use Rattle.cards.specs.Shown.{shown, card_sheet, sheet_told, crews_text, crew_lines, ending};

use finders::limit::Limit;
use prints::ending::Tail;
use prints::print::{fault_line, print, tail};
use rosters::bit_roster::BitRoster;
use sessions::listing::Listing;
use sessions::marking::Marking;
use std::alloc::{AllocError, Global};
use texts::card::{apply, head};
use texts::refusals::TextFault;

/// What a card gives: the lines of its crews, at most 512, and then `end` with their number or `more` where another follows; for a card with a fault, the line of the fault alone.
pub fn answer(heap: Global, text: &[u8]) -> Result<Vec<u8>, AllocError>
    ensures { IfOk result (λ v. v.items ≡ shown text.now) }
{
    let mut answer = Vec::new(heap);
    match fill_roster(text) {
        Ok(session) => show_crews(session, &mut answer)?,
        Err(fault) => show_fault(&fault, &mut answer)?,
    }
    Ok(answer)
}

// A session on the roster that a card fills.
fn fill_roster(text: &[u8]) -> Result<Marking<BitRoster>, TextFault>
    ensures { sheet_told result ≡ card_sheet text.now }
{
    let size = head(text)?;
    let mut session = Marking::new(BitRoster::new(size));
    apply(text, &mut session)?;
    Ok(session)
}

// Adds the line of a fault.
fn show_fault(fault: &TextFault, answer: &mut Vec<u8>) -> Result<(), AllocError>
    ensures { OnOk result (answer.new.items ≡ answer.old.items ++ fault_text fault.now) }
{
    let mut line = [0; 34];
    let Ok(count) = fault_line(fault, &mut line) else {
        unreachable!();
    };
    answer.extend_from_slice(&line[..count])
}

// Adds the lines of the crews of a session, and how they end.
fn show_crews(session: Marking<BitRoster>, answer: &mut Vec<u8>) -> Result<(), AllocError>
    ensures { OnOk result (answer.new.items ≡ answer.old.items ++ crews_text (crews (bit_grid session.roster))) }
{
    let Ok(limit) = Limit::try_from(512) else {
        unreachable!();
    };
    let mut listing = session.close(limit);
    let ending = show_ahead(&mut listing, answer)?;
    let mut line = [0; 25];
    let Ok(count) = tail(ending, &mut line) else {
        unreachable!();
    };
    answer.extend_from_slice(&line[..count])
}

// Adds the lines of the crews ahead, at most 512, and tells how they end.
fn show_ahead(listing: &mut Listing<BitRoster>, answer: &mut Vec<u8>) -> Result<Tail, AllocError>
    ensures { IfOk result (λ t. (t ≡ ending (ahead (bit_grid listing.old.table) listing.old.walk)) × (answer.new.items ≡ answer.old.items ++ crew_lines (ahead (bit_grid listing.old.table) listing.old.walk))) }
{
    // The number of the crews shown so far is the answer where the list ends, so the loop counts them.
    for shown in 0..512 {
        let Some(crew) = listing.next() else {
            return Ok(Tail::End(shown));
        };
        let mut line = [0; 366];
        let Ok(count) = print(&crew, &mut line) else {
            unreachable!();
        };
        answer.extend_from_slice(&line[..count])?;
    }
    match listing.next() {
        Some(_) => Ok(Tail::More),
        None => Ok(Tail::End(512)),
    }
}
