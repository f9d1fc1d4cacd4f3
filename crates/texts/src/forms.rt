// The forms of a line, and the numbers in it.
ghost use Rattle.std.specs.Prelude.{◌≡◌};
ghost use Rattle.texts.specs.Forms.{said, taken_apart, field_number};

use crate::split::split;

/// A line taken apart: what it begins with, and the two fields that follow, as they stand in the text.
#[derive(Clone, Copy)]
pub enum TextLine<'a> {
    Size(&'a [u8], &'a [u8]),
    Free(&'a [u8], &'a [u8]),
    Off(&'a [u8], &'a [u8]),
    Blank,
}

/// The line taken apart at its spaces, or none where it begins like no form.
pub fn read(line: &[u8]) -> Option<TextLine<'_>>
    ensures { said result ≡ taken_apart line.now }
{
    // Most lines of a card are `free`, and no line begins in two of the three ways, so they are tried in the order in which a card has them often.
    if let Some(rest) = line.strip_prefix(b"free ") {
        let (member, slot) = split(rest, b' ');
        Some(TextLine::Free(member, slot))
    } else if let Some(rest) = line.strip_prefix(b"off ") {
        let (member, slot) = split(rest, b' ');
        Some(TextLine::Off(member, slot))
    } else if let Some(rest) = line.strip_prefix(b"size ") {
        let (members, slots) = split(rest, b' ');
        Some(TextLine::Size(members, slots))
    } else if line.is_empty() {
        Some(TextLine::Blank)
    } else {
        None
    }
}

/// The number that a field writes: one digit, or two of which the first is not 0.
pub fn number(field: &[u8]) -> Option<u8>
    ensures { result ≡ field_number field.now }
{
    match field {
        [unit @ b'0'..=b'9'] => Some(*unit - b'0'),
        [ten @ b'1'..=b'9', unit @ b'0'..=b'9'] => Some((*ten - b'0') * 10 + (*unit - b'0')),
        _ => None,
    }
}
