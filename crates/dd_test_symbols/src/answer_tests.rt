use crate::symbols::made;
use dd_canon::isomorphic;
use dd_covers::is_torus;
use dd_symbol::Connected;
use std::alloc::Global;
use std::process::Abort;

/// Two chambers that s2 exchanges, with these degrees of their tiles, and the other way round.
const ROWS: [([u32; 2], [u32; 2], Option<[u32; 2]>); 3] = [
    ([3, 6], [6, 3], Some([2, 1])),
    ([3, 6], [3, 6], Some([1, 2])),
    ([3, 6], [4, 4], None),
];

fn two_chambers<R: Abort + Alloc<A = Global>>(rt: &R, m01: &[u32; 2]) -> Connected {
    made(rt, [&[1, 2], &[1, 2], &[2, 1]], m01, &[4, 4])
}

/// Returns whether the isomorphism that is found from one symbol to the other is this, or none.
fn has_map<R: Abort + Alloc<A = Global>>(
    rt: &R,
    one: &Connected,
    other: &Connected,
    map: &Option<[u32; 2]>,
) -> bool {
    let found = isomorphic(rt.alloc(), one, other).expect(rt, "an answer");
    match (&found, map) {
        (Some(found), Some(map)) => found.as_slice() == &map[..],
        (None, None) => true,
        _ => false,
    }
}

/// Returns the same with the symbol of two chambers that has these degrees.
fn maps_to<R: Abort + Alloc<A = Global>>(
    rt: &R,
    one: &Connected,
    degrees: &[u32; 2],
    map: &Option<[u32; 2]>,
) -> bool {
    let other = two_chambers(rt, degrees);
    has_map(rt, one, &other, map)
}

#[test]
fn isomorphic_symbols(rt: HostRuntime) {
    for (one, other, map) in &ROWS {
        let symbol = two_chambers(&rt, one);
        assert!(rt; maps_to(&rt, &symbol, other, map), "{one:?} {other:?}");
    }
}

fn is_torus_of<R: Abort + Alloc<A = Global>>(rt: &R, ops: [&[u32]; 3], fours: &[u32]) -> bool {
    let symbol = made(rt, ops, fours, fours);
    is_torus(rt.alloc(), &symbol).expect(rt, "an answer")
}

#[test]
fn tori(rt: HostRuntime) {
    let glued: [&[u32]; 3] = [
        &[2, 1, 4, 3, 6, 5, 8, 7],
        &[8, 3, 2, 5, 4, 7, 6, 1],
        &[6, 5, 8, 7, 2, 1, 4, 3],
    ];
    assert!(rt; is_torus_of(&rt, glued, &[4; 8]));
    assert!(rt; !is_torus_of(&rt, [&[2, 1]; 3], &[4, 4]));
}
