use crate::codes::{has_code, have_codes};
use dd_branch_degrees::{Table, add_members_of, members_of};
use dd_member_lists::SymbolList;
use dd_model::Request;
use std::alloc::Global;
use std::process::Abort;

/// Four squares, two by two, with mirrors along all four sides.
static SQUARES_IN_MIRRORS: [u8; 96] = [
    2, 8, 1, 1, 3, 2, 4, 2, 24, 3, 5, 23, 6, 4, 10, 5, 7, 9, 8, 6, 7, 7, 1, 8, 10, 16, 6, 9, 11, 5,
    12, 10, 32, 11, 13, 31, 14, 12, 13, 13, 15, 14, 16, 14, 15, 15, 9, 16, 18, 24, 17, 17, 19, 18,
    20, 18, 19, 19, 21, 20, 22, 20, 26, 21, 23, 25, 24, 22, 4, 23, 17, 3, 26, 32, 22, 25, 27, 21,
    28, 26, 27, 27, 29, 28, 30, 28, 29, 29, 31, 30, 32, 30, 12, 31, 25, 11,
];

/// The table with these involutions.
fn table<R: Abort + Alloc<A = Global>>(rt: &R, size: u8, numbers: &[u8]) -> Table {
    assert!(rt; size >= 1 && size <= 36);
    assert!(rt; numbers.len() == 3 * size as usize);
    let found = Table::of(rt.alloc(), size, numbers);
    found.expect(rt, "an answer").expect(rt, "a table")
}

/// The members of the catalogue with these involutions.
fn members<R: Abort + Alloc<A = Global>>(rt: &R, size: u8, numbers: &[u8]) -> SymbolList {
    let table = table(rt, size, numbers);
    members_of(rt.alloc(), table, &Request::up_to(36)).expect(rt, "members")
}

/// Adds the members with these involutions.
fn add_members<R: Abort + Alloc<A = Global>>(
    rt: &R,
    size: u8,
    numbers: &[u8],
    list: &mut SymbolList,
) {
    let table = table(rt, size, numbers);
    add_members_of(rt.alloc(), table, &Request::up_to(36), list).expect(rt, "members");
}

#[test]
fn one_chamber(rt: HostRuntime) {
    let found = members(&rt, 1, &[1, 1, 1]);
    let expected = [[1, 1, 1, 3, 6], [1, 1, 1, 4, 4], [1, 1, 1, 6, 3]];
    assert!(rt; have_codes(&rt, &found, expected.as_slice()));
}

#[test]
fn of_two_numberings_the_least(rt: HostRuntime) {
    let found = members(&rt, 2, &[1, 1, 2, 2, 2, 1]);
    let expected = [
        [1, 1, 2, 2, 2, 1, 3, 3, 6, 6],
        [1, 1, 2, 2, 2, 1, 3, 6, 4, 4],
        [1, 1, 2, 2, 2, 1, 4, 4, 4, 4],
    ];
    assert!(rt; have_codes(&rt, &found, expected.as_slice()));
}

#[test]
fn two_chambers_of_one_tile(rt: HostRuntime) {
    let found = members(&rt, 2, &[2, 1, 1, 1, 2, 2]);
    let expected = [
        [2, 1, 1, 1, 2, 2, 4, 4, 3, 6],
        [2, 1, 1, 1, 2, 2, 4, 4, 4, 4],
        [2, 1, 1, 1, 2, 2, 6, 6, 3, 3],
    ];
    assert!(rt; have_codes(&rt, &found, expected.as_slice()));
}

#[test]
fn one_table_after_another(rt: HostRuntime) {
    let mut list = members(&rt, 2, &[1, 1, 2, 2, 2, 1]);
    add_members(&rt, 2, &[2, 1, 1, 1, 2, 2], &mut list);
    assert_eq!(rt; list.len(), 6);
    assert!(rt; has_code(&rt, &list, 5, &[2, 1, 1, 1, 2, 2, 6, 6, 3, 3]));
}

/// With least degrees of 3 the shares of the corners add up to too little, whatever stands at the
/// other cells, of which there are tens of millions of choices.
#[test]
fn too_little_curvature(rt: HostRuntime) {
    let found = members(&rt, 32, SQUARES_IN_MIRRORS.as_slice());
    assert_eq!(rt; found.len(), 0);
}
