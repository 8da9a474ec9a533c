use crate::nets::{fan, pair};
use dd_draw::{PlaceFault, place};
use std::process::Abort;
use std::test::Fail;

/// Where all stays within the limit the points are answered: the second vertex of a pair is half a
/// shift before the first.
#[test]
fn a_pair_is_placed(rt: HostRuntime) -> Result<(), Fail> {
    let net = pair(rt.alloc())?;
    let places = place(rt.alloc(), &net)?;
    let [one, two] = places.points.as_slice() else {
        panic!(rt; "not two points");
    };
    assert_eq!(rt; (one.x.num, one.x.den), (0, 1));
    assert_eq!(rt; (one.y.num, one.y.den), (0, 1));
    assert_eq!(rt; (two.x.num, two.x.den), (-1, 2));
    assert_eq!(rt; (two.y.num, two.y.den), (0, 1));
    Ok(())
}

/// The pivots of fans are quotients of Fibonacci numbers. The pivot of the 45th step is the first
/// number over 2^62, and the step before it makes it.
#[test]
fn a_fan_of_48_is_too_wide(rt: HostRuntime) -> Result<(), Fail> {
    let net = fan(rt.alloc(), 48)?;
    let answer = place(rt.alloc(), &net);
    let expected = matches!(
        answer,
        Err(PlaceFault::TooWide {
            step: 44,
            row: 45,
            column: 45
        })
    );
    assert!(rt; expected);
    Ok(())
}

/// A net of 97 vertices is not tried.
#[test]
fn a_fan_of_97_has_too_many_vertices(rt: HostRuntime) -> Result<(), Fail> {
    let net = fan(rt.alloc(), 97)?;
    let answer = place(rt.alloc(), &net);
    let expected = matches!(answer, Err(PlaceFault::TooManyVertices { count: 97 }));
    assert!(rt; expected);
    Ok(())
}
