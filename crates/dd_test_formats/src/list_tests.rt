ghost use Rattle.std.specs.Prelude.{◌≡◌};

use dd_member_lists::{SymbolList, Symbols};
use dd_symbol::{Symbol, build};
use dd_text::put_list;
use std::alloc::Global;
use std::process::Abort;

/// Involutions, the degrees of the tiles and of the vertices, and the code that they make.
type Row = ([&'static [u32]; 3], &'static [u8], &'static [u32]);

/// The first two differ only in their degrees, so that the list keeps one table for both.
const ROWS: [Row; 3] = [
    (
        [&[1, 2], &[1, 2], &[2, 1]],
        &[3, 6, 4, 4],
        &[1, 1, 2, 2, 2, 1, 3, 6, 4, 4],
    ),
    (
        [&[1, 2], &[1, 2], &[2, 1]],
        &[4, 12, 4, 4],
        &[1, 1, 2, 2, 2, 1, 4, 12, 4, 4],
    ),
    ([&[1], &[1], &[1]], &[3, 6], &[1, 1, 1, 3, 6]),
];

const LINES: &[u8] = b"<1.9:2:1 2,1 2,2:3 6,4>\n<1.10:2:1 2,1 2,2:4 12,4>\n<1.11:1:1,1,1:3,6>\n";

/// The numbers of a list.
fn list<R: Abort + Alloc<A = Global>>(rt: &R, numbers: &[u32]) -> Vec<u32>
    ensures { result.items ≡ numbers.now }
{
    Vec::from_slice(rt.alloc(), numbers).expect(rt, "a list")
}

/// The numbers of some bytes.
fn words<R: Abort + Alloc<A = Global>>(rt: &R, bytes: &[u8]) -> Vec<u32>
    ensures { result.items ≡ bytes.now }
{
    let mut words = Vec::new(rt.alloc());
    for byte in bytes {
        words.push(u32::from(*byte)).expect(rt, "room for a number");
    }
    words
}

/// Appends the symbol of a row.
fn add<R: Abort + Alloc<A = Global>>(rt: &R, all: &mut SymbolList, row: &Row) {
    let ([s0, s1, s2], degrees, _) = row;
    let n = s0.len();
    assert!(rt; s1.len() == n && s2.len() == n && degrees.len() == 2 * n);
    let (m01, m12) = degrees.split_at(n);
    let ops = [list(rt, s0), list(rt, s1), list(rt, s2)];
    let symbol = build(rt.alloc(), ops, words(rt, m01), words(rt, m12), 2);
    let symbol = symbol.expect(rt, "lists of a connected symbol");
    all.push(&symbol, degrees).expect(rt, "room for a symbol");
}

fn list_of_rows<R: Abort + Alloc<A = Global>>(rt: &R) -> SymbolList {
    let mut symbols = SymbolList::new(rt.alloc());
    for row in &ROWS {
        add(rt, &mut symbols, row);
    }
    symbols
}

fn is_code<R: Abort + Alloc<A = Global>>(rt: &R, symbol: &Symbol, numbers: &[u32]) -> bool {
    let code = symbol.code(rt.alloc()).expect(rt, "a code");
    code.as_slice() == numbers
}

/// Returns whether the code of the symbol at a place is this.
fn has_code<R: Abort + Alloc<A = Global>>(
    rt: &R,
    all: &Symbols,
    place: usize,
    numbers: &[u32],
) -> bool {
    assert!(rt; place < all.len());
    let symbol = all.copy(rt.alloc(), place).expect(rt, "a copy");
    is_code(rt, symbol.symbol(), numbers)
}

/// Returns whether the lines of symbols, after `before` others, are these.
fn has_lines<R: Abort + Alloc<A = Global>>(
    rt: &R,
    all: &Symbols,
    before: u64,
    lines: &[u8],
) -> bool {
    let mut text = Vec::new(rt.alloc());
    put_list(&mut text, before, all).expect(rt, "room for lines");
    text.as_slice() == lines
}

#[test]
fn listed_symbols(rt: HostRuntime) {
    let symbols = list_of_rows(&rt);
    assert_eq!(rt; symbols.len(), 3);
    assert_eq!(rt; symbols.all().alike_from(0).len(), 2);
    assert_eq!(rt; symbols.all().alike_from(2).len(), 1);
    for (place, row) in ROWS.iter().enumerate() {
        assert!(rt; has_code(&rt, &symbols.all(), place, row.2), "at {place}");
    }
    assert!(rt; has_lines(&rt, &symbols.all(), 8, LINES));
}
