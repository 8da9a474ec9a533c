use crate::symbols::made;
use dd_covers::torus;
use dd_gram::{Gram, Matrix, carry, gram, matrix, own_frame};
use dd_lattice::shifts;
use dd_model::Frame;
use std::alloc::Global;
use std::process::Abort;

/// The form of the torus cover of the symbol of one chamber with these degrees, and its frame.
fn form_over<R: Abort + Alloc<A = Global>>(rt: &R, m01: u32, m12: u32) -> (Gram, Frame) {
    let symbol = made(rt, [&[1]; 3], &[m01], &[m12]);
    assert!(rt; symbol.symbol().size() <= 1024);
    let cover = torus(rt.alloc(), &symbol).expect(rt, "a flat symbol");
    let net = shifts(rt.alloc(), &cover.symbol).expect(rt, "a net");
    let form = gram(rt.alloc(), &cover.symbol, &net).expect(rt, "a form");
    (form, own_frame(&form))
}

#[test]
fn form_of_squares(rt: HostRuntime) {
    let (form, frame) = form_over(&rt, 4, 4);
    assert_eq!(rt; form, Gram { a: 8, b: 0, c: 8 });
    assert_eq!(rt; frame, Frame::Own { p: 0, q: 1000 });
}

#[test]
fn form_of_triangles(rt: HostRuntime) {
    let (form, frame) = form_over(&rt, 3, 6);
    assert_eq!(rt; form, Gram { a: 16, b: 8, c: 16 });
    assert_eq!(rt; frame, Frame::Own { p: 500, q: 866 });
}

/// The torus of the squares has 8 chambers and as many symmetries.
#[test]
fn symmetries_of_squares(rt: HostRuntime) {
    let s0 = [2, 1, 4, 3, 6, 5, 8, 7];
    let s1 = [4, 3, 2, 1, 8, 7, 6, 5];
    let s2 = [5, 6, 7, 8, 1, 2, 3, 4];
    let t = made(&rt, [&s0, &s1, &s2], &[4; 8], &[4; 8]);
    assert!(rt; t.symbol().size() == 8);
    for k in 0..8 {
        let map = carry(rt.alloc(), &t, k + 1).expect(&rt, "an answer");
        assert!(rt; map.is_some());
    }
}

/// The symmetry of the squares that takes chamber 1 to chamber 2 is a reflection.
#[test]
fn matrix_of_a_reflection(rt: HostRuntime) {
    let symbol = made(&rt, [&[1]; 3], &[4], &[4]);
    assert!(rt; symbol.symbol().size() <= 1024);
    let cover = torus(rt.alloc(), &symbol).expect(&rt, "a flat symbol");
    assert!(rt; cover.symbol.symbol().size() == 8);
    let net = shifts(rt.alloc(), &cover.symbol).expect(&rt, "a net");
    let map = carry(rt.alloc(), &cover.symbol, 2)
        .expect(&rt, "an answer")
        .expect(&rt, "a map");
    let found = matrix(rt.alloc(), &cover.symbol, &net, &map).expect(&rt, "a matrix");
    assert_eq!(rt;
        found,
        Matrix {
            xx: -1,
            xy: 0,
            yx: 0,
            yy: 1
        }
    );
}

/// A symbol of two chambers, of tiles with 3 edges and with 6.
#[test]
fn chambers_of_other_degrees_are_not_carried(rt: HostRuntime) {
    let s = made(&rt, [&[1, 2], &[1, 2], &[2, 1]], &[3, 6], &[4, 4]);
    assert!(rt; s.symbol().size() == 2);
    let map = carry(rt.alloc(), &s, 2).expect(&rt, "an answer");
    assert!(rt; map.is_none());
}
