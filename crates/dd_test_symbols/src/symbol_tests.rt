use crate::symbols::{built, made};
use dd_model::{Index, Pair};
use dd_symbol::{CellShape, Connected, Kind, Refusal, Symbol, cmp_code, inverse, is_bijection};
use std::alloc::Global;
use std::cmp::Ordering;
use std::process::Abort;

/// Images under s0 of two chambers, of which s1 and s2 move none, and why they are refused.
const TABLES: [([u32; 2], Refusal); 3] = [
    (
        [3, 2],
        Refusal::OpRange {
            i: Index::Zero,
            chamber: 1,
        },
    ),
    (
        [2, 2],
        Refusal::NotInvolution {
            i: Index::Zero,
            chamber: 1,
        },
    ),
    ([1, 2], Refusal::NotConnected { chamber: 2 }),
];

/// Degrees of the tiles and of the vertices of two chambers that s0 exchanges, and why they are
/// refused.
const DEGREES: [([u32; 2], [u32; 2], Refusal); 5] = [
    (
        [4, 6],
        [4, 0],
        Refusal::DegreeZero {
            pair: Pair::Vertex,
            chamber: 2,
        },
    ),
    (
        [4, 6],
        [4, 4],
        Refusal::DegreeVaries {
            pair: Pair::Tile,
            chamber: 2,
        },
    ),
    (
        [3, 3],
        [99, 4],
        Refusal::NotMultiple {
            pair: Pair::Tile,
            chamber: 1,
            r: 2,
            m: 3,
        },
    ),
    (
        [62, 62],
        [99, 4],
        Refusal::BranchingTooLarge {
            pair: Pair::Tile,
            chamber: 1,
            v: 31,
        },
    ),
    (
        [60, 60],
        [30, 31],
        Refusal::BranchingTooLarge {
            pair: Pair::Vertex,
            chamber: 2,
            v: 31,
        },
    ),
];

/// Why five lists are refused.
fn refusal<R: Abort + Alloc<A = Global>>(
    rt: &R,
    ops: [&[u32]; 3],
    m01: &[u32],
    m12: &[u32],
    limit: u32,
) -> Option<Refusal> {
    built(rt, ops, m01, m12, limit).err()
}

#[test]
fn refuses_tables(rt: HostRuntime) {
    for (s0, why) in &TABLES {
        let found = refusal(&rt, [s0, &[1, 2], &[1, 2]], &[4, 4], &[4, 4], 1024);
        assert_eq!(rt; found, Some(*why));
    }
}

#[test]
fn refuses_degrees(rt: HostRuntime) {
    for (m01, m12, why) in &DEGREES {
        let found = refusal(&rt, [&[2, 1], &[1, 2], &[1, 2]], m01, m12, 1024);
        assert_eq!(rt; found, Some(*why));
    }
}

#[test]
fn refuses_sizes(rt: HostRuntime) {
    let none = refusal(&rt, [&[], &[], &[]], &[], &[], 1024);
    assert_eq!(rt; none, Some(Refusal::Empty));
    let two = refusal(&rt, [&[2, 1], &[1, 2], &[1, 2]], &[4, 4], &[4, 4], 1);
    assert_eq!(rt; two, Some(Refusal::TooManyChambers { n: 2 }));
    let ops: [&[u32]; 3] = [&[2, 1, 3], &[1, 2, 3], &[1, 3, 2]];
    let three = refusal(&rt, ops, &[4, 4, 4], &[4, 4, 4], 1024);
    assert_eq!(rt; three, Some(Refusal::NotCommuting { chamber: 1 }));
}

/// The symbol of the tiling 4.8.8.
fn octagons<R: Abort + Alloc<A = Global>>(rt: &R) -> Connected {
    let ops: [&[u32]; 3] = [&[1, 2, 3], &[1, 3, 2], &[2, 1, 3]];
    made(rt, ops, &[4, 8, 8], &[3, 3, 3])
}

/// Returns the same in another numbering.
fn other_octagons<R: Abort + Alloc<A = Global>>(rt: &R) -> Connected {
    let ops: [&[u32]; 3] = [&[1, 2, 3], &[2, 1, 3], &[3, 2, 1]];
    made(rt, ops, &[8, 8, 4], &[3, 3, 3])
}

fn check_images<R: Abort>(rt: &R, symbol: &Symbol) {
    assert_eq!(rt; symbol.size(), 3);
    assert_eq!(rt; symbol.op(Index::One, 2), 3);
    assert_eq!(rt; (symbol.m01(3), symbol.m12(3)), (8, 3));
    assert_eq!(rt; symbol.degree(Pair::Edge, 1), 2);
    assert_eq!(rt; symbol.branching(Pair::Tile, 3), 4);
    let (least, kind, r) = (2, Kind::Chain, 2);
    assert_eq!(rt; symbol.cell(Pair::Tile, 3), CellShape { least, kind, r });
}

#[test]
fn reads_images_and_degrees(rt: HostRuntime) {
    let connected = octagons(&rt);
    check_images(&rt, connected.symbol());
}

fn has_code<R: Abort + Alloc<A = Global>>(rt: &R, symbol: &Symbol, numbers: &[u32]) -> bool {
    let code = symbol.code(rt.alloc()).expect(rt, "a code");
    code.as_slice() == numbers
}

fn has_cells<R: Abort + Alloc<A = Global>>(
    rt: &R,
    symbol: &Symbol,
    pair: Pair,
    chambers: &[u32],
) -> bool {
    let cells = symbol.least_chambers(rt.alloc(), pair).expect(rt, "cells");
    cells.as_slice() == chambers
}

#[test]
fn lists_codes_and_cells(rt: HostRuntime) {
    let connected = octagons(&rt);
    let code = [1, 1, 2, 2, 3, 1, 3, 2, 3, 4, 8, 8, 3, 3, 3];
    assert!(rt; has_code(&rt, connected.symbol(), &code));
    assert!(rt; has_cells(&rt, connected.symbol(), Pair::Tile, &[1, 2]));
    assert!(rt; has_cells(&rt, connected.symbol(), Pair::Edge, &[1, 3]));
}

fn renumbered<R: Abort + Alloc<A = Global>>(rt: &R, symbol: &Connected, map: &[u32]) -> Connected {
    assert!(rt; map.len() == symbol.symbol().size() as usize);
    assert!(rt; is_bijection(rt.alloc(), map).expect(rt, "an answer"));
    symbol.renumber(rt.alloc(), map).expect(rt, "a symbol")
}

/// How the code of the symbol 4.8.8 compares with that of another.
fn octagons_to<R: Abort + Alloc<A = Global>>(rt: &R, other: &Connected) -> Ordering {
    let octagons = octagons(rt);
    cmp_code(octagons.symbol(), other.symbol())
}

/// Returns the same with that of another after it is renumbered.
fn octagons_to_renumbered<R: Abort + Alloc<A = Global>>(
    rt: &R,
    other: &Connected,
    map: &[u32],
) -> Ordering {
    let renumbered = renumbered(rt, other, map);
    octagons_to(rt, &renumbered)
}

#[test]
fn renumbers(rt: HostRuntime) {
    let other = other_octagons(&rt);
    assert_eq!(rt; octagons_to(&rt, &other), Ordering::Less);
    assert_eq!(rt;
        octagons_to_renumbered(&rt, &other, &[2, 3, 1]),
        Ordering::Equal
    );
}

fn copied<R: Abort + Alloc<A = Global>>(rt: &R) -> Connected {
    let octagons = octagons(rt);
    octagons.try_copy(rt.alloc()).expect(rt, "a copy")
}

fn has_inverse<R: Abort + Alloc<A = Global>>(rt: &R, map: [u32; 3]) -> bool {
    let found = inverse(rt.alloc(), &map).expect(rt, "an answer");
    found.is_some()
}

#[test]
fn copies_and_inverts(rt: HostRuntime) {
    let copy = copied(&rt);
    assert_eq!(rt; octagons_to(&rt, &copy), Ordering::Equal);
    assert!(rt; has_inverse(&rt, [2, 3, 1]));
    assert!(rt; !has_inverse(&rt, [2, 3, 3]));
}
