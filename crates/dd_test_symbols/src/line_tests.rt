use crate::symbols::made;
use dd_symbol::Connected;
use dd_text::{put_line, put_lines};
use std::alloc::Global;
use std::process::Abort;

type Lists = [&'static [u32]; 5];

const SQUARES: Lists = [&[1], &[1], &[1], &[4], &[4]];

const TRUNCATED_SQUARES: Lists = [&[1, 2, 3], &[1, 3, 2], &[2, 1, 3], &[4, 8, 8], &[3, 3, 3]];

const OTHER_NUMBERING: Lists = [&[1, 2, 3], &[2, 1, 3], &[3, 2, 1], &[8, 8, 4], &[3, 3, 3]];

/// Five lists, the number of a line, and what a text holds after the line was put behind `before`.
const LINES: [(Lists, u128, &str); 3] = [
    (SQUARES, 2, "before\n<1.2:1:1,1,1:4,4>\n"),
    (
        TRUNCATED_SQUARES,
        1,
        "before\n<1.1:3:1 2 3,1 3,2 3:4 8,3>\n",
    ),
    (
        OTHER_NUMBERING,
        1234567890123456789,
        "before\n<1.1234567890123456789:3:1 2 3,2 3,3 2:8 4,3>\n",
    ),
];

fn symbol_of<R: Abort + Alloc<A = Global>>(rt: &R, lists: &Lists) -> Connected {
    let [s0, s1, s2, m01, m12] = *lists;
    made(rt, [s0, s1, s2], m01, m12)
}

fn line_of<R: Abort + Alloc<A = Global>>(rt: &R, number: u128, symbol: &Connected) -> Vec<u8> {
    let mut text = Vec::from_slice(rt.alloc(), b"before\n").expect(rt, "a text");
    put_line(&mut text, number, symbol.symbol()).expect(rt, "a line");
    text
}

fn has_line<R: Abort + Alloc<A = Global>>(
    rt: &R,
    number: u128,
    symbol: &Connected,
    text: &str,
) -> bool {
    let found = line_of(rt, number, symbol);
    found.as_slice() == text.as_bytes()
}

#[test]
fn lines(rt: HostRuntime) {
    for (lists, number, text) in &LINES {
        let symbol = symbol_of(&rt, lists);
        assert!(rt; has_line(&rt, *number, &symbol, text), "{text}");
    }
}

fn two_symbols<R: Abort + Alloc<A = Global>>(rt: &R) -> Vec<Connected> {
    let mut symbols = Vec::new(rt.alloc());
    symbols.push(symbol_of(rt, &SQUARES)).expect(rt, "room");
    symbols
        .push(symbol_of(rt, &TRUNCATED_SQUARES))
        .expect(rt, "room");
    symbols
}

fn lines_of<R: Abort + Alloc<A = Global>>(rt: &R, before: u64, symbols: &[Connected]) -> Vec<u8> {
    let mut text = Vec::new(rt.alloc());
    put_lines(&mut text, before, symbols).expect(rt, "lines");
    text
}

fn has_lines<R: Abort + Alloc<A = Global>>(
    rt: &R,
    before: u64,
    symbols: &[Connected],
    text: &[u8],
) -> bool {
    let found = lines_of(rt, before, symbols);
    found.as_slice() == text
}

#[test]
fn numbered_lines(rt: HostRuntime) {
    let symbols = two_symbols(&rt);
    let text = b"<1.9:1:1,1,1:4,4>\n<1.10:3:1 2 3,1 3,2 3:4 8,3>\n";
    assert!(rt; has_lines(&rt, 8, symbols.as_slice(), text));
}
