// A card: its first line tells the size of a table, and the later ones mark and clear pairs of it.
ghost use Rattle.std.specs.Prelude.{◌≡◌};
ghost use Rattle.texts.specs.Cards.{told, size_told, heading, putting, after_put, filled};
ghost use Rattle.texts.specs.Forms.{form, field_number, both_numbers, FormLaws};
ghost use Rattle.texts.specs.Lines.{LineLaws};

use crate::forms::{TextLine, number, read};
use crate::refusals::{Cause, TextFault};
use crate::split::split;
use sessions::marking::Marking;
use tables::size::Size;
use tables::table::Roster;

/// The size that the first line of `text` tells, or a fault at that line.
pub fn head(text: &[u8]) -> Result<Size, TextFault>
    ensures answer { told result ≡ heading text.now }
    ensures lines_are_the_text { LineLaws }
    ensures forms_are_these { FormLaws }
{
    let (line, _) = split(text, b'\n');
    read_size(line).map_err(|cause| TextFault {
        line: 1,
        byte: 0,
        cause,
    })
}

// The size that a line tells.
fn read_size(line: &[u8]) -> Result<Size, Cause>
    ensures { told result ≡ size_told (form line.now) }
{
    let Some(TextLine::Size(members, slots)) = read(line) else {
        return Err(Cause::Form);
    };
    let (members, slots) = numbers(members, slots)?;
    Ok(Size::new(members, slots)?)
}

// The numbers that two fields write.
fn numbers(first: &[u8], second: &[u8]) -> Result<(u8, u8), Cause>
    ensures { result ≡ both_numbers (field_number first.now) (field_number second.now) }
{
    number(first).zip(number(second)).ok_or(Cause::Form)
}

/// Passes over the first line of `text` and puts the later ones on `session`, up to the first fault.
pub fn apply<R: Roster>(text: &[u8], session: &mut Marking<R>) -> Result<(), TextFault>
    ensures answer { result ≡ (filled (R.Roster.sheet session.old.roster) text.now).answer }
    ensures after { R.Roster.sheet session.new.roster ≡ (filled (R.Roster.sheet session.old.roster) text.now).after }
{
    let (_, mut rest) = split(text, b'\n');
    // A `for` over `text.split(..).enumerate()` counts the lines itself, but in a function with a type parameter no proof of it closes: the loop's generated lemma on the iterator's closure is refused.
    let mut line = 1;
    while !rest.is_empty() {
        line += 1;
        let (bytes, after) = split(rest, b'\n');
        if let Err(cause) = put(bytes, session) {
            return Err(TextFault {
                line,
                byte: text.len() - rest.len(),
                cause,
            });
        }
        rest = after;
    }
    Ok(())
}

// Puts one line on the session: `free` marks, `off` clears, a blank line does nothing.
fn put<R: Roster>(line: &[u8], session: &mut Marking<R>) -> Result<(), Cause>
    ensures answer { result ≡ putting (R.Roster.sheet session.old.roster) (form line.now) }
    ensures after { R.Roster.sheet session.new.roster ≡ after_put (R.Roster.sheet session.old.roster) (form line.now) }
{
    match read(line) {
        Some(TextLine::Free(member, slot)) => {
            let (member, slot) = numbers(member, slot)?;
            Ok(session.mark(member, slot)?)
        }
        Some(TextLine::Off(member, slot)) => {
            let (member, slot) = numbers(member, slot)?;
            Ok(session.clear(member, slot)?)
        }
        Some(TextLine::Blank) => Ok(()),
        Some(TextLine::Size(_, _)) | None => Err(Cause::Form),
    }
}
