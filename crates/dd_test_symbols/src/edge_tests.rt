use crate::symbols::made;
use dd_lattice::{EdgeKind, edge_kinds};
use dd_model::Pair;
use dd_symbol::Connected;
use std::alloc::Global;
use std::process::Abort;

fn kinds_in<R: Abort + Alloc<A = Global>>(rt: &R, torus: &Connected) -> Vec<EdgeKind> {
    let edges = torus.symbol().least_chambers(rt.alloc(), Pair::Edge);
    let edges = edges.expect(rt, "the edges");
    edge_kinds(rt.alloc(), torus, &edges).expect(rt, "their kinds")
}

/// The kinds of the edges of the torus that these lists make.
fn kinds_of<R: Abort + Alloc<A = Global>>(
    rt: &R,
    ops: [&[u32]; 3],
    m01: &[u32],
    m12: &[u32],
) -> Vec<EdgeKind> {
    let torus = made(rt, ops, m01, m12);
    kinds_in(rt, &torus)
}

/// The torus of triangles, which has one vertex and two tiles.
#[test]
fn edges_of_triangles(rt: HostRuntime) {
    let ops: [&[u32]; 3] = [
        &[2, 1, 7, 6, 10, 4, 3, 12, 11, 5, 9, 8],
        &[3, 5, 1, 9, 2, 12, 10, 11, 4, 7, 8, 6],
        &[4, 6, 8, 1, 11, 2, 12, 3, 10, 9, 5, 7],
    ];
    let kinds = kinds_of(&rt, ops, &[3; 12], &[6; 12]);
    let expected = matches!(
        kinds.as_slice(),
        [EdgeKind::Crossing, EdgeKind::Left, EdgeKind::Left]
    );
    assert!(rt; expected);
}

/// The torus of one square.
#[test]
fn edges_of_a_square(rt: HostRuntime) {
    let ops: [&[u32]; 3] = [
        &[2, 1, 7, 6, 8, 4, 3, 5],
        &[3, 5, 1, 7, 2, 8, 4, 6],
        &[4, 6, 5, 1, 3, 2, 8, 7],
    ];
    let kinds = kinds_of(&rt, ops, &[4; 8], &[4; 8]);
    let expected = matches!(kinds.as_slice(), [EdgeKind::Left, EdgeKind::Left]);
    assert!(rt; expected);
}

/// The torus of hexagons, which has two vertices and one tile.
#[test]
fn edges_of_hexagons(rt: HostRuntime) {
    let ops: [&[u32]; 3] = [
        &[2, 1, 7, 6, 10, 4, 3, 12, 11, 5, 9, 8],
        &[3, 5, 1, 9, 2, 12, 11, 10, 4, 8, 7, 6],
        &[4, 6, 8, 1, 11, 2, 12, 3, 10, 9, 5, 7],
    ];
    let kinds = kinds_of(&rt, ops, &[6; 12], &[3; 12]);
    let expected = matches!(
        kinds.as_slice(),
        [EdgeKind::Tree, EdgeKind::Left, EdgeKind::Left]
    );
    assert!(rt; expected);
}
