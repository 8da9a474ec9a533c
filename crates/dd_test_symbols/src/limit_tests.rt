use crate::symbols::built;
use dd_covers::oriented;
use dd_symbol::Connected;
use std::alloc::Global;
use std::process::Abort;

/// The involution that swaps `first` and `first + 1`, `first + 2` and `first + 3`, and so on, and
/// fixes the other chambers.
fn swaps<R: Abort + Alloc<A = Global>>(rt: &R, size: u32, first: u32) -> Vec<u32> {
    let mut images = Vec::new(rt.alloc());
    for chamber in 1..=size {
        let image = if chamber < first {
            chamber
        } else if (chamber - first) % 2 == 1 {
            chamber - 1
        } else {
            size.min(chamber.saturating_add(1))
        };
        images.push(image).expect(rt, "room for an image");
    }
    images
}

/// The chambers 1 to `size`.
fn chambers<R: Abort + Alloc<A = Global>>(rt: &R, size: u32) -> Vec<u32> {
    let mut all = Vec::new(rt.alloc());
    for chamber in 1..=size {
        all.push(chamber).expect(rt, "room for a chamber");
    }
    all
}

/// Returns the same degree for each chamber.
fn degrees<R: Abort + Alloc<A = Global>>(rt: &R, size: u32, degree: u32) -> Vec<u32> {
    let mut all = Vec::new(rt.alloc());
    for _ in 0..size {
        all.push(degree).expect(rt, "room for a degree");
    }
    all
}

/// The symbol of one tile whose chambers are a row from one mirror to another.
fn row_of<R: Abort + Alloc<A = Global>>(rt: &R, size: u32) -> Connected {
    let ops = [
        &swaps(rt, size, 1),
        &swaps(rt, size, 2),
        &chambers(rt, size),
    ];
    let [s0, s1, s2] = ops;
    let (tiles, vertices) = (degrees(rt, size, size), degrees(rt, size, 4));
    let row = built(
        rt,
        [s0.as_slice(), s1.as_slice(), s2.as_slice()],
        &tiles,
        &vertices,
        16384,
    );
    row.expect(rt, "a connected symbol")
}

/// The number of chambers of the oriented cover.
fn size_of_cover<R: Abort + Alloc<A = Global>>(rt: &R, symbol: &Connected) -> u32 {
    assert!(rt; symbol.symbol().size() <= 8192);
    let cover = oriented(rt.alloc(), symbol).expect(rt, "a cover");
    cover.symbol.symbol().size()
}

#[test]
fn the_largest_symbol_has_an_oriented_cover(rt: HostRuntime) {
    let row = row_of(&rt, 8192);
    assert_eq!(rt; size_of_cover(&rt, &row), 16384);
}
