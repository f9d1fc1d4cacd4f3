// Cards with what is shown of them, and prints into buffers of every length that matters.
use crate::answer::answer;
use prints::ending::Tail;
use prints::print::{fault_line, print, tail};
use prints::refusals::BufferRefusal;
use rosters::bit_roster::BitRoster;
use sessions::marking::Marking;
use std::alloc::{AllocError, Global};
use std::process::Abort;
use std::test::Fail;
use tables::crew::Crew;
use tables::refusals::{RosterRefusal, SizeRefusal};
use tables::table::Table;
use texts::card::{apply, head};
use texts::refusals::{Cause, TextFault};

// Whether each card is answered by the text beside it.
fn gives(rt: &(impl Abort + AllocGlobal), cards: &[(&str, &str)]) -> Result<(), Fail> {
    for (card, expected) in cards {
        let shown = answer(rt.alloc(), card.as_bytes())?;
        assert!(rt; shown.as_slice() == expected.as_bytes());
    }
    Ok(())
}

#[test]
fn crews_in_order(rt: HostRuntime) -> Result<(), Fail> {
    gives(
        &rt,
        &[
            (
                "size 4 4\nfree 0 0\nfree 0 1\nfree 1 0\nfree 1 1\nfree 1 2\nfree 2 1\nfree 2 2\nfree 3 3\n",
                "0,1,2 / 1\n0,1 / 0,1\n1,2 / 1,2\n1 / 0,1,2\n3 / 3\nend 5\n",
            ),
            ("size 3 3", "end 0\n"),
            ("size 1 1\nfree 0 0", "0 / 0\nend 1\n"),
            (
                "size 64 64\nfree 63 63\nfree 9 10\nfree 10 9\noff 63 63\n",
                "9 / 10\n10 / 9\nend 2\n",
            ),
        ],
    )
}

#[test]
fn faults_of_the_head(rt: HostRuntime) -> Result<(), Fail> {
    gives(
        &rt,
        &[
            ("", "fault 5 line 1\n"),
            ("\nsize 4 4\n", "fault 5 line 1\n"),
            ("free 0 0\n", "fault 5 line 1\n"),
            ("size 4 4\r\n", "fault 5 line 1\n"),
            ("size 100 1\n", "fault 5 line 1\n"),
            ("size 04 4\n", "fault 5 line 1\n"),
            ("size 0 4\n", "fault 3 line 1\n"),
            ("size 4 65\n", "fault 3 line 1\n"),
            ("size 99 64\n", "fault 3 line 1\n"),
        ],
    )
}

#[test]
fn faults_of_later_lines(rt: HostRuntime) -> Result<(), Fail> {
    gives(
        &rt,
        &[
            ("size 4 4\nfree 4 4\n", "fault 1 line 2\n"),
            ("size 4 4\nfree 0 4\n", "fault 2 line 2\n"),
            ("size 4 4\nfree 99 0", "fault 1 line 2\n"),
            ("size 4 4\nfree 00 1\n", "fault 5 line 2\n"),
            ("size 4 4\n\nfree 0 0\nsize 4 4\n", "fault 5 line 4\n"),
            ("size 4 4\nfree 0  1\n", "fault 5 line 2\n"),
            ("size 4 4\nfree 0 1 \n", "fault 5 line 2\n"),
        ],
    )
}

#[test]
fn damaged_lines(rt: HostRuntime) -> Result<(), Fail> {
    gives(
        &rt,
        &[
            ("size 4 4\nfree\t0 1\n", "fault 5 line 2\n"),
            ("size 4 4\nFree 0 1\n", "fault 5 line 2\n"),
            ("size 4 4\nfree 1\n", "fault 5 line 2\n"),
            ("size 4 4\nfre 0 1\n", "fault 5 line 2\n"),
            ("size 4 4\noff 1 010\n", "fault 5 line 2\n"),
            ("size 4 4\noff  1 1\n", "fault 5 line 2\n"),
            ("size 4 4\n free 1 1\n", "fault 5 line 2\n"),
        ],
    )
}

#[test]
fn lines_before_a_fault_stay(rt: HostRuntime) -> Result<(), Fail> {
    let text = b"size 3 3\nfree 0 0\n\nfree 1 1\noff 0 0\nfree 3 0\nfree 2 2\n";
    let size = head(text).map_err(|_| Fail::new("no head"))?;
    let mut session = Marking::new(BitRoster::new(size));
    let fault = TextFault {
        line: 6,
        byte: 36,
        cause: Cause::Roster(RosterRefusal::NoMember),
    };
    assert_eq!(rt; apply(text, &mut session), Err(fault));
    assert!(rt; session.slot_word(0) == 0);
    assert!(rt; session.slot_word(1) == 2);
    assert!(rt; session.slot_word(2) == 0);
    Ok(())
}

// A print goes into its caller's memory, so these tests lend arrays of the lengths that matter.
#[test]
fn the_longest_crew(rt: HostRuntime) -> Result<(), Fail> {
    let crew = Crew::new(u64::MAX, u64::MAX).ok_or_else(|| Fail::new("no crew"))?;
    let mut exact = [7; 366];
    assert_eq!(rt; print(&crew, &mut exact), Ok(366));
    assert!(rt; exact[365] == b'\n');
    let mut short = [7; 365];
    assert_eq!(rt; print(&crew, &mut short), Err(BufferRefusal::TooShort));
    assert!(rt; short[0] == 7);
    assert!(rt; short[364] == 7);
    Ok(())
}

#[test]
fn short_lines(rt: HostRuntime) {
    let mut buffer = [7; 9];
    assert_eq!(rt; tail(Tail::End(510), &mut buffer), Ok(8));
    assert!(rt; buffer == *b"end 510\n\x07");
    assert_eq!(rt; tail(Tail::More, &mut buffer), Ok(5));
    assert!(rt; buffer == *b"more\n10\n\x07");
    assert_eq!(rt;
        tail(Tail::End(12345), &mut buffer),
        Err(BufferRefusal::TooShort)
    );
    let fault = TextFault {
        line: 1,
        byte: 0,
        cause: Cause::Size(SizeRefusal::OutOfRange),
    };
    assert_eq!(rt;
        fault_line(&fault, &mut buffer),
        Err(BufferRefusal::TooShort)
    );
    assert!(rt; buffer == *b"more\n10\n\x07");
}

// A card of n members and slots, each member free but in the slot of the same number.
fn but_equal(heap: Global, n: u8) -> Result<String, AllocError> {
    let mut card = format!(in heap; "size {n} {n}\n")?;
    for i in 0..n {
        for j in (0..n).filter(|&j| j != i) {
            writeln!(card, "free {i} {j}")?;
        }
    }
    Ok(card)
}

#[test]
fn at_most_512(rt: HostRuntime) -> Result<(), Fail> {
    let nine = but_equal(rt.alloc(), 9)?;
    let shown = answer(rt.alloc(), nine.as_bytes())?;
    assert!(rt;
        shown
            .as_slice()
            .ends_with(b"\n8 / 0,1,2,3,4,5,6,7\nend 510\n")
    );
    let ten = but_equal(rt.alloc(), 10)?;
    let shown = answer(rt.alloc(), ten.as_bytes())?;
    assert!(rt; shown.as_slice().ends_with(b"\nmore\n"));
    Ok(())
}
