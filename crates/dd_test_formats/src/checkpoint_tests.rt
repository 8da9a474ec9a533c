use dd_check::{CheckFault, read_checkpoint, write_checkpoint};
use std::alloc::Global;
use std::process::Abort;
use std::test::Fail;

/// The text of version 2 after a pause of one line.
const PAUSED: &[u8] =
    b"dressline checkpoint 2\nrun 1\nrequest 2 0 0 all\nfaces 3-216\ndegrees 3-216\nlines 1\nbytes 18\nat 1 1 1 1 4 4\n";

/// The text of version 2 after the first round.
const ROUND: &[u8] =
    b"dressline checkpoint 2\nrun 1\nrequest 2 0 0 all\nfaces 3-216\ndegrees 3-216\nlines 3\nbytes 54\nat 2 1 1 2 2 2 1\n";

/// The first round in version 1.
const OLD_ROUND: &[u8] =
    b"dressline checkpoint 1\nrun 1\nrequest 2 0 0 3 3 all\nlines 3\nbytes 54\nat 2 1 1 2 2 2 1\n";

/// Texts, and why they are refused.
const FAULTY: [(&[u8], CheckFault); 9] = [
    (
        b"dressline checkpoint 9\nrun 1\nrequest 2 0 0 3 3 all\nlines 3\nbytes 54\nat end\n",
        CheckFault::Version,
    ),
    (b"dressline checkpoint 3\nrun 1\n", CheckFault::Version),
    (
        b"dressline checkpoint 1\nrun 1\nrequest 2 0 0 3 3 all\nlines 03\nbytes 54\nat end\n",
        CheckFault::Shape { line: 4 },
    ),
    (
        b"dressline checkpoint 1\nrun 1\nrequest 37 0 0 3 3 all\nlines 3\nbytes 54\nat end\n",
        CheckFault::Range { line: 3 },
    ),
    (
        b"dressline checkpoint 1\nrun 1\nrequest 2 0 0 3 3 all\nlines 3\nbytes 54\nat 2 1 1 1 2 2 2\n",
        CheckFault::Position,
    ),
    (
        b"dressline checkpoint 1\nrun 1\nrequest 2 0 0 3 3 all\nlines 3\nbytes 54\nat end\n ",
        CheckFault::Shape { line: 7 },
    ),
    (
        b"dressline checkpoint 2\nrun 1\nrequest 2 0 0 all\nfaces 3,4\n",
        CheckFault::Range { line: 4 },
    ),
    (
        b"dressline checkpoint 2\nrun 0\nrequest 2 0 0 every\n",
        CheckFault::Range { line: 2 },
    ),
    (
        b"dressline checkpoint 2\nrun 1\nrequest 2 0 0 all\nfaces 3-216\ndegrees 03\n",
        CheckFault::Shape { line: 5 },
    ),
];

/// Where the lines of `PAUSED` end, in bytes.
const ENDS: [usize; 8] = [23, 29, 47, 59, 73, 81, 90, 105];

/// Where the lines of `OLD_ROUND` end.
const OLD_ENDS: [usize; 6] = [23, 29, 51, 59, 68, 85];

/// Why a text is refused. Without a contract, so that no test reads that of the reader.
fn fault_of(alloc: Global, text: &[u8]) -> Option<CheckFault> {
    read_checkpoint(alloc, text).err()
}

/// Returns the text of version 2 of the checkpoint that a text states.
fn rewritten<R: Abort>(rt: &R, alloc: Global, text: &[u8]) -> Vec<u8> {
    let check = read_checkpoint(alloc, text).expect(rt, "a checkpoint");
    let mut out = Vec::new(alloc);
    write_checkpoint(&mut out, &check).expect(rt, "room for a text");
    out
}

/// Returns the fault of the first `length` bytes of a text whose lines end at `ends`.
fn fault_of_beginning(ends: &[usize], length: usize) -> CheckFault {
    let mut line = 1u32;
    for end in ends {
        if length < *end {
            break;
        }
        line = line.wrapping_add(1);
    }
    if line == 1 {
        CheckFault::Version
    } else {
        CheckFault::Shape { line }
    }
}

#[test]
fn texts_read_back(rt: HostRuntime) {
    assert_eq!(rt; rewritten(&rt, rt.alloc(), PAUSED).as_slice(), PAUSED);
    assert_eq!(rt; rewritten(&rt, rt.alloc(), OLD_ROUND).as_slice(), ROUND);
}

#[test]
fn beginnings_are_refused(rt: HostRuntime) {
    for length in 0..PAUSED.len() {
        let fault = fault_of(rt.alloc(), &PAUSED[..length]);
        assert_eq!(rt; fault, Some(fault_of_beginning(&ENDS, length)));
    }
    for length in 0..OLD_ROUND.len() {
        let fault = fault_of(rt.alloc(), &OLD_ROUND[..length]);
        assert_eq!(rt; fault, Some(fault_of_beginning(&OLD_ENDS, length)));
    }
}

#[test]
fn faulty_texts_are_refused(rt: HostRuntime) {
    for (text, fault) in &FAULTY {
        assert_eq!(rt; fault_of(rt.alloc(), text), Some(*fault));
    }
}

#[test]
fn a_text_that_is_too_long(rt: HostRuntime) -> Result<(), Fail> {
    let text = vec![in rt.alloc(); b' '; 4_097]?;
    assert_eq!(rt; fault_of(rt.alloc(), &text), Some(CheckFault::Long));
    let fault = fault_of(rt.alloc(), &text[..4_096]);
    assert_eq!(rt; fault, Some(CheckFault::Version));
    Ok(())
}
