use crate::symbols::made;
use dd_covers::torus;
use dd_lattice::{Net, shifts};
use dd_symbol::Connected;
use std::alloc::Global;
use std::process::Abort;

/// The net of the torus cover of a flat symbol.
fn net_of<R: Abort + Alloc<A = Global>>(rt: &R, symbol: &Connected) -> Net {
    assert!(rt; symbol.symbol().size() <= 1024);
    let cover = torus(rt.alloc(), symbol).expect(rt, "a flat symbol");
    shifts(rt.alloc(), &cover.symbol).expect(rt, "a net")
}

/// The net over the symbol of one chamber with these degrees.
fn net_over<R: Abort + Alloc<A = Global>>(rt: &R, m01: u32, m12: u32) -> Net {
    let symbol = made(rt, [&[1]; 3], &[m01], &[m12]);
    net_of(rt, &symbol)
}

/// Returns whether a net has one vertex, and edges with these shifts in this order.
fn has_shifts(net: &Net, shifts: &[(i64, i64)]) -> bool {
    net.vertices == 1
        && net.edges.len() == shifts.len()
        && net.edges.iter().zip(shifts.iter()).all(|(edge, shift)| edge.from == 1
            && edge.to == 1
            && (edge.x, edge.y) == *shift)
}

#[test]
fn net_of_squares(rt: HostRuntime) {
    let net = net_over(&rt, 4, 4);
    assert!(rt; has_shifts(&net, &[(1, 0), (0, 1)]));
}

#[test]
fn net_of_triangles(rt: HostRuntime) {
    let net = net_over(&rt, 3, 6);
    assert!(rt; has_shifts(&net, &[(1, -1), (1, 0), (0, 1)]));
}

/// The net of hexagons has two vertices and three edges from one to the other.
#[test]
fn net_of_hexagons(rt: HostRuntime) {
    let net = net_over(&rt, 6, 3);
    assert_eq!(rt; (net.vertices, net.edges.len()), (2, 3));
}
