// The lines that are printed: of a crew, of how a list of crews ends, of a fault.
ghost use Rattle.std.specs.Prelude.{◌≡◌, ◌+◌, ◌≤◌, ◌++◌, length};
ghost use Rattle.arrayvec.specs.ArrayString.{array_string_len};
ghost use Rattle.tables.specs.Sides.{sides};
ghost use Rattle.prints.specs.Prints.{set_text, crew_line, tail_line, fault_text, PrintLaws};

use crate::ending::Tail;
use arrayvec::ArrayString;
use itoa::Buffer;
use tables::crew::Crew;
use texts::refusals::TextFault;
use words::refusal::Refusal;
use words::sets::holds;

/// The line of a crew, as `0,1,2 / 1`.
#[tactic(auto, using(crate::proofs::PrintLaws::print_laws), unfolding(crate::specs::Prints::crew_line))]
pub fn crew(crew: &Crew) -> ArrayString<366>
    ensures text { result.bytes ≡ crew_line (sides crew.now) }
    ensures laws { PrintLaws }
{
    let mut line = ArrayString::new();
    push_numbers(&mut line, crew.members());
    line.push_str(" / ");
    push_numbers(&mut line, crew.slots());
    line.push('\n');
    line
}

/// The line that ends a list of crews, `end 5` or `more`.
pub fn tail(ending: Tail) -> ArrayString<25>
    ensures { result.bytes ≡ tail_line ending }
{
    let mut line = ArrayString::new();
    match ending {
        Tail::End(count) => {
            line.push_str("end ");
            line.push_str(Buffer::new().format(count));
        }
        Tail::More => line.push_str("more"),
    }
    line.push('\n');
    line
}

/// The line of a fault, as `fault 5 line 1`.
#[tactic(auto, using(crate::proofs::Lengths::cause_digit))]
pub fn fault(fault: &TextFault) -> ArrayString<34>
    ensures { result.bytes ≡ fault_text fault.now }
{
    let mut line = ArrayString::new();
    line.push_str("fault ");
    line.push_str(Buffer::new().format(fault.number()));
    line.push_str(" line ");
    line.push_str(Buffer::new().format(fault.line));
    line.push('\n');
    line
}

// Adds the numbers that `word` holds, with commas between them.
fn push_numbers(line: &mut ArrayString<366>, word: u64)
    requires { array_string_len line.old + 181 ≤ 366 }
    ensures text { line.new.bytes ≡ line.old.bytes ++ set_text word }
    ensures short { length (set_text word) ≤ 181 }
{
    let start = line.len();
    let mut digits = Buffer::new();
    // The numbers go into the line itself and each is tested in the loop: a text of their own and a filter made a short line a quarter slower.
    for i in 0..64u8 {
        if holds(word, i) {
            if line.len() > start {
                line.push(',');
            }
            line.push_str(digits.format(i));
        }
    }
}
