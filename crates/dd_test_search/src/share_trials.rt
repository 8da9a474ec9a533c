ghost use Rattle.std.specs.Prelude.{◌≡◌, ◌*◌, ◌<◌, ◌≤◌};
ghost use Rattle.dd_branch_tables.specs.Rows.{partial_of, IsReady};
ghost use Rattle.dd_branch_tables.specs.Stem.{IsStem};
ghost use Rattle.dd_branch_bounds.specs.Kept.{AreSides};

use crate::fixtures::asked;
use dd_branch_bounds::{PathShares, TablePaths, parity_rules_out};
use dd_branch_tables::{FirstVisits, PartialTable, Stem};
use dd_model::Allowed;
use std::test::Fail;

/// Returns whether nothing with `size` chambers is sought.
fn is_empty(tiles: u32, least: u32, size: u8) -> bool
    requires least { (1 ≤ least) × (least ≤ 36) }
    requires size { (1 ≤ size) × (size ≤ 36) }
{
    let rows = PartialTable::empty(size);
    let classes = PathShares::of(&asked(36, tiles, least), size);
    TablePaths::start(&classes).rules_out(&classes, &rows)
}

#[test]
fn a_tile_has_at_most_twelve_chambers(rt: HostRuntime) -> Result<(), Fail> {
    assert!(rt; !is_empty(1, 3, 12));
    assert!(rt; is_empty(1, 3, 13));
    assert!(rt; !is_empty(2, 3, 24));
    assert!(rt; is_empty(2, 3, 25));
    assert!(rt; !is_empty(0, 4, 36));
    assert!(rt; is_empty(0, 5, 1));
    Ok(())
}

/// Puts a number in at a place of a code, and learns from it; false where that cannot be, or where
/// a cell is then whole that may have no degree.
fn put(
    rows: &mut PartialTable,
    classes: &PathShares,
    sides: &mut TablePaths,
    place: u8,
    number: u8,
) -> bool
    requires ready { IsReady rows.old }
    requires place { place < 3 * (partial_of rows.old).size }
    requires kept { AreSides classes.now (partial_of rows.old) sides.old }
    ensures ready { IsReady rows.new }
    ensures size { (partial_of rows.new).size ≡ (partial_of rows.old).size }
    ensures kept { AreSides classes.now (partial_of rows.new) sides.new }
{
    let mark = rows.mark();
    if !rows.put(place, number) {
        return false;
    }
    !sides.learn(classes, rows, mark)
}

/// Answers for a chain of five chambers: before it is put in, while it is open, for the number that
/// closes it, and when it is closed. The last answers are for the paths that there were before.
fn answers() -> [bool; 6] {
    let empty = PartialTable::empty(6);
    let mut rows = PartialTable::empty(6);
    let classes = PathShares::of(&asked(36, 0, 4), 6);
    let start = TablePaths::start(&classes);
    let mut sides = start;
    let before = sides.rules_out(&classes, &rows);
    let one = put(&mut rows, &classes, &mut sides, 0, 2);
    let two = put(&mut rows, &classes, &mut sides, 4, 3);
    let three = put(&mut rows, &classes, &mut sides, 6, 4);
    let four = put(&mut rows, &classes, &mut sides, 10, 5);
    let put_in = one && two && three && four;
    let open = sides.rules_out(&classes, &rows);
    let told = sides.rules_out_number(&classes, &rows, 12, 5);
    let capped = put(&mut rows, &classes, &mut sides, 12, 5) && !sides.rules_out(&classes, &rows);
    [
        before,
        put_in,
        open,
        told,
        capped,
        start.rules_out(&classes, &empty),
    ]
}

#[test]
fn a_long_chain_exceeds(rt: HostRuntime) -> Result<(), Fail> {
    let [before, put_in, open, told, capped, back] = answers();
    assert!(rt; !before);
    assert!(rt; put_in);
    assert!(rt; !open);
    assert!(rt; told);
    assert!(rt; !capped);
    assert!(rt; !back);
    Ok(())
}

/// Returns whether nothing with three chambers is sought, where chamber 1 is a whole tile.
fn is_empty_with_a_tile(tiles: u32, least: u32) -> bool
    requires { (1 ≤ least) × (least ≤ 36) }
{
    let mut rows = PartialTable::empty(3);
    let classes = PathShares::of(&asked(36, tiles, least), 3);
    let mut sides = TablePaths::start(&classes);
    put(&mut rows, &classes, &mut sides, 0, 1)
        && put(&mut rows, &classes, &mut sides, 1, 1)
        && sides.rules_out(&classes, &rows)
}

#[test]
fn a_whole_tile_leaves_no_room(rt: HostRuntime) -> Result<(), Fail> {
    assert!(rt; is_empty_with_a_tile(1, 3));
    assert!(rt; !is_empty_with_a_tile(2, 3));
    assert!(rt; is_empty_with_a_tile(1, 1));
    assert!(rt; !is_empty_with_a_tile(2, 1));
    assert!(rt; !is_empty_with_a_tile(0, 3));
    Ok(())
}

/// Returns whether nothing is sought where faces have five edges, before and after chambers 1 and 2
/// are a whole tile, of which the degree is even.
fn answers_for_pentagons() -> [bool; 3] {
    let mut faces = Allowed::none();
    faces.add(5);
    let mut request = asked(36, 0, 3);
    request.faces = faces;
    let mut rows = PartialTable::empty(20);
    let classes = PathShares::of(&request, 20);
    let mut sides = TablePaths::start(&classes);
    let before = sides.rules_out(&classes, &rows);
    let put_in = put(&mut rows, &classes, &mut sides, 0, 2)
        && put(&mut rows, &classes, &mut sides, 1, 1);
    [before, put_in, put(&mut rows, &classes, &mut sides, 4, 2)]
}

#[test]
fn a_whole_tile_has_an_allowed_degree(rt: HostRuntime) -> Result<(), Fail> {
    let [before, put_in, whole] = answers_for_pentagons();
    assert!(rt; !before);
    assert!(rt; put_in);
    assert!(rt; !whole);
    Ok(())
}

/// Returns whether nothing of a size is sought that has one tile, in which s0 fixes chamber 1.
fn is_empty_with_a_chain(size: u8) -> bool
    requires { (1 ≤ size) × (size ≤ 36) }
{
    let mut rows = PartialTable::empty(size);
    let classes = PathShares::of(&asked(36, 1, 3), size);
    let mut sides = TablePaths::start(&classes);
    put(&mut rows, &classes, &mut sides, 0, 1) && sides.rules_out(&classes, &rows)
}

/// Returns whether that is known before s0 is put in.
fn is_refused_with_a_chain(size: u8) -> bool
    requires { (1 ≤ size) × (size ≤ 36) }
{
    let rows = PartialTable::empty(size);
    let classes = PathShares::of(&asked(36, 1, 3), size);
    TablePaths::start(&classes).rules_out_number(&classes, &rows, 0, 1)
}

#[test]
fn a_tile_with_a_fixed_chamber_has_at_most_six(rt: HostRuntime) -> Result<(), Fail> {
    assert!(rt; !is_empty_with_a_chain(6));
    assert!(rt; is_empty_with_a_chain(7));
    assert!(rt; !is_refused_with_a_chain(6));
    assert!(rt; is_refused_with_a_chain(7));
    Ok(())
}

#[test]
fn odd_sizes_have_fixed_chambers(rt: HostRuntime) -> Result<(), Fail> {
    let mut odd = PartialTable::empty(3);
    let mut even = PartialTable::empty(4);
    assert!(rt; !parity_rules_out(&odd));
    assert!(rt; odd.put(0, 2));
    assert!(rt; even.put(0, 2));
    assert!(rt; parity_rules_out(&odd));
    assert!(rt; !parity_rules_out(&even));
    Ok(())
}

/// How many numbers a search puts in under a stem that no test refuses, without those that follow
/// from others. The stem's last number was put in after a mark.
fn count_nodes(
    stem: &mut Stem,
    visit: &mut FirstVisits,
    classes: &PathShares,
    before: &TablePaths,
    mark: usize,
) -> u64
    requires stem { IsStem stem.old }
    requires kept { AreSides classes.now (partial_of stem.old.rows) before.now }
    ensures stem { stem.new ≡ stem.old }
{
    let mut sides = *before;
    if sides.learn(classes, stem.rows(), mark) {
        return 0;
    }
    if sides.rules_out(classes, stem.rows()) {
        return 0;
    }
    if parity_rules_out(stem.rows()) {
        return 0;
    }
    let here = stem.mark();
    let mut count = u64::from(here > mark);
    if stem.is_whole() {
        return count;
    }
    let numbers = stem.candidates();
    for number in 0..37u8 {
        if !numbers.contains(number) {
            continue;
        }
        if stem.enter(number, visit) {
            count = count_nodes(stem, visit, classes, &sides, here).saturating_add(count);
            stem.leave(here);
        }
    }
    count
}

/// How many numbers a search for a size puts in, where degrees are asked for from a least one on.
fn nodes_of(tiles: u32, least: u32, size: u8) -> u64
    requires least { (1 ≤ least) × (least ≤ 36) }
    requires size { (1 ≤ size) × (size ≤ 36) }
{
    let mut stem = Stem::new(size);
    let mut visit = FirstVisits::new();
    let classes = PathShares::of(&asked(36, tiles, least), size);
    let start = TablePaths::start(&classes);
    count_nodes(&mut stem, &mut visit, &classes, &start, 0)
}

/// How many it puts in for all sizes up to one.
fn nodes_up_to(tiles: u32, least: u32, size: u8) -> u64
    requires least { (1 ≤ least) × (least ≤ 36) }
    requires size { size ≤ 36 }
{
    let mut count = 0u64;
    for k in 0..size {
        count = count.saturating_add(nodes_of(tiles, least, k + 1));
    }
    count
}

#[test]
fn a_search_turns_back_in_time(rt: HostRuntime) -> Result<(), Fail> {
    assert_eq!(rt; nodes_of(0, 3, 6), 296);
    assert_eq!(rt; nodes_of(0, 3, 7), 257);
    assert_eq!(rt; nodes_of(0, 3, 8), 999);
    assert_eq!(rt; nodes_of(0, 3, 9), 1017);
    assert_eq!(rt; nodes_of(0, 3, 10), 3019);
    assert_eq!(rt; nodes_of(0, 3, 11), 3448);
    assert_eq!(rt; nodes_of(0, 3, 12), 9716);
    assert_eq!(rt; nodes_of(1, 3, 12), 121);
    assert_eq!(rt; nodes_of(1, 3, 13), 0);
    assert_eq!(rt; nodes_up_to(2, 3, 12), 5815);
    assert_eq!(rt; nodes_up_to(0, 1, 9), 4769);
    Ok(())
}
