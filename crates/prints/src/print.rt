// Printing into a caller's buffer: a crew, how a list of crews ends, or a fault, each as one line.
ghost use Rattle.std.specs.Prelude.{◌≡◌, ◌≤◌, true, length, is_ok};
ghost use Rattle.tables.specs.Sides.{sides};
ghost use Rattle.prints.specs.Prints.{crew_line, tail_line, fault_text, printing, after_print, PrintLaws};

use crate::ending::Tail;
use crate::line;
use crate::refusals::BufferRefusal;
use arrayvec::ArrayString;
use tables::crew::Crew;
use texts::refusals::TextFault;

/// Writes the line of a crew, as `0,1,2 / 1`, to the front of `buffer` and tells its length, or refuses a buffer too short for it and leaves it as it was.
#[tactic(auto, using(crate::proofs::PrintLaws::print_laws))]
pub fn print(crew: &Crew, buffer: &mut [u8]) -> Result<usize, BufferRefusal>
    ensures answer { result ≡ printing (crew_line (sides crew.now)) buffer.old }
    ensures after { buffer.new ≡ after_print (crew_line (sides crew.now)) buffer.old }
    ensures laws { PrintLaws }
    ensures suffices { 366 ≤ length buffer.old → is_ok result ≡ true }
{
    copy(&line::crew(crew), buffer)
}

/// Writes the line that ends a list of crews, `end 5` or `more`, to the front of `buffer` and tells its length, or refuses a buffer too short for it and leaves it as it was.
pub fn tail(ending: Tail, buffer: &mut [u8]) -> Result<usize, BufferRefusal>
    ensures answer { result ≡ printing (tail_line ending) buffer.old }
    ensures after { buffer.new ≡ after_print (tail_line ending) buffer.old }
    ensures suffices { 25 ≤ length buffer.old → is_ok result ≡ true }
{
    copy(&line::tail(ending), buffer)
}

/// Writes the line of a fault, as `fault 5 line 1`, to the front of `buffer` and tells its length, or refuses a buffer too short for it and leaves it as it was.
pub fn fault_line(fault: &TextFault, buffer: &mut [u8]) -> Result<usize, BufferRefusal>
    ensures answer { result ≡ printing (fault_text fault.now) buffer.old }
    ensures after { buffer.new ≡ after_print (fault_text fault.now) buffer.old }
    ensures suffices { 34 ≤ length buffer.old → is_ok result ≡ true }
{
    copy(&line::fault(fault), buffer)
}

// Writes a line to the front of `buffer` and tells its length, or refuses a buffer too short for it and leaves it as it was.
fn copy<const N: usize>(line: &ArrayString<N>, buffer: &mut [u8]) -> Result<usize, BufferRefusal>
    ensures answer { result ≡ printing line.now.bytes buffer.old }
    ensures after { buffer.new ≡ after_print line.now.bytes buffer.old }
    ensures suffices { N ≤ length buffer.old → is_ok result ≡ true }
{
    let bytes = line.as_str().as_bytes();
    if buffer.len() < bytes.len() {
        return Err(BufferRefusal::TooShort);
    }
    buffer[..bytes.len()].copy_from_slice(bytes);
    Ok(bytes.len())
}
