use dd_model::Pair;
use dd_symbol::Refusal;
use dd_text::{FileFault, Why, read_file};
use std::alloc::Global;

/// The fault of a text, and the number of symbols where it is read.
fn told(alloc: Global, text: &[u8]) -> Result<usize, FileFault> {
    match read_file(alloc, text) {
        Ok(symbols) => Ok(symbols.len()),
        Err(fault) => Err(fault),
    }
}

#[test]
fn refused_files(rt: HostRuntime) {
    let rows = [
        ("<1.1:1:1,1", Why::UnexpectedEnd, 10),
        ("<1.1;1", Why::Stray, 4),
        ("<1.1:1234567890:", Why::NumberTooLong, 5),
        ("<1.1:1 3:1,1,1,1:3,3,3>", Why::Dimension, 7),
        ("<1.1:0:,,:,>", Why::Size, 5),
        ("<1.1:1025:,,:,>", Why::Size, 5),
        ("<1.1:2:1,2,2:3,6>", Why::ListShort, 8),
        ("<1.1:1:1 1,1,1:3,6>", Why::ListLong, 9),
        ("<1.1:2:2,3,1 2:3,6>", Why::Image, 9),
        ("<0", Why::Size, 1),
        ("<0;", Why::Size, 1),
        ("<2000", Why::Size, 1),
        ("<0.1", Why::UnexpectedEnd, 4),
        ("<1 3", Why::Dimension, 3),
        ("<1 2 1234567890", Why::Stray, 5),
        ("<1 1234567890", Why::NumberTooLong, 3),
        ("<1234567890", Why::NumberTooLong, 1),
        ("<1.1:1:1,1,1:3,6", Why::UnexpectedEnd, 16),
        ("<1.1:1:1,1,1:3>", Why::Stray, 14),
        ("<1:1,1,1:3,>", Why::ListShort, 11),
        ("<1:1,1,1:3,6 6>", Why::ListLong, 13),
        ("<1:1,1,#\n1:3,6>", Why::Stray, 7),
        ("<1:1,1,\x0b1:3,6>", Why::Stray, 7),
        ("\x0c", Why::Stray, 0),
        (" 7", Why::Stray, 1),
    ];
    for (text, why, at) in rows {
        let wanted = Err(FileFault { symbol: 1, at, why });
        assert_eq!(rt; told(rt.alloc(), text.as_bytes()), wanted, "{text}");
    }
}

/// A text of one symbol, and why it is none.
const SYMBOLS: [(&str, Refusal); 5] = [
    (
        "<1.1:3:2 3,1 2 3,1 3:4 3,3 4>",
        Refusal::NotCommuting { chamber: 1 },
    ),
    (
        "<1.1:2:1 2,1 2,1 2:3 3,6 6>",
        Refusal::NotConnected { chamber: 2 },
    ),
    (
        "<1.1:1:1,1,1:3,0>",
        Refusal::DegreeZero {
            pair: Pair::Vertex,
            chamber: 1,
        },
    ),
    (
        "<1.1:2:2,2,1 2:3,5>",
        Refusal::NotMultiple {
            pair: Pair::Vertex,
            chamber: 1,
            r: 2,
            m: 5,
        },
    ),
    (
        "<1.1:1:1,1,1:3,31>",
        Refusal::BranchingTooLarge {
            pair: Pair::Vertex,
            chamber: 1,
            v: 31,
        },
    ),
];

#[test]
fn refused_symbols(rt: HostRuntime) {
    for (text, refusal) in &SYMBOLS {
        let wanted = Err(FileFault {
            symbol: 1,
            at: 0,
            why: Why::Symbol(*refusal),
        });
        assert_eq!(rt; told(rt.alloc(), text.as_bytes()), wanted, "{text}");
    }
}

#[test]
fn faults_of_later_symbols(rt: HostRuntime) {
    let rows = [
        ("<1:1,1,1:3,6><1:1,1,1:3,>", 2, Why::ListShort, 24),
        ("<1:1,1,1:3,6>x", 2, Why::Stray, 13),
        ("<1:1,1,1:3,><1;", 1, Why::ListShort, 11),
    ];
    for (text, symbol, why, at) in rows {
        let wanted = Err(FileFault { symbol, at, why });
        assert_eq!(rt; told(rt.alloc(), text.as_bytes()), wanted, "{text}");
    }
}

#[test]
fn read_files(rt: HostRuntime) {
    let rows = [
        ("", 0),
        ("# a\n# b", 0),
        ("#<", 0),
        ("# one chamber\n<1 2:1,\n 1,1:3,6>  # triangular\n", 1),
        ("< 01\t. 000000001 :1 02: 1,1,1:3\r,6 ><1:1,1,1:4,4>", 2),
        ("<1.1:3:1 2 3,1 3,2 3:4 8,3>", 1),
    ];
    for (text, count) in rows {
        assert_eq!(rt; told(rt.alloc(), text.as_bytes()), Ok(count), "{text}");
    }
}

#[test]
fn every_proper_prefix_ends_too_early(rt: HostRuntime) {
    let text = b"<1.1:1:1,1,1:3,6>";
    for length in 1..text.len() {
        let wanted = Err(FileFault {
            symbol: 1,
            at: length as u64,
            why: Why::UnexpectedEnd,
        });
        assert_eq!(rt; told(rt.alloc(), &text[..length]), wanted, "at {length}");
    }
}

#[test]
fn a_file_that_is_too_long(rt: HostRuntime) {
    let mut text = vec![in rt.alloc(); b' '; 16777217].expect(&rt, "room for a text");
    let wanted = Err(FileFault {
        symbol: 0,
        at: 16777216,
        why: Why::Long,
    });
    assert_eq!(rt; told(rt.alloc(), &text), wanted);
    text.pop();
    assert_eq!(rt; told(rt.alloc(), &text), Ok(0));
}
