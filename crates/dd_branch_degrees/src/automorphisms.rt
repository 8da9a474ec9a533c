ghost use Rattle.std.specs.Prelude.{◌≡◌, ◌↔◌, ℕ, ◌+◌, ◌<◌, ◌≤◌, IsTrue, IfOk, IfSome, length, slice_index_or};
ghost use Rattle.std.specs.Ordering.{nat_cmp};
ghost use Rattle.std.specs.List.{Contains};
ghost use Rattle.std.specs.Cmp.Lexicographic.{slice_cmp};
ghost use Rattle.dd_model.specs.Isomorphic.{Undoes};
ghost use Rattle.dd_model.specs.Symbol.{IsChamber, item, op};
ghost use Rattle.dd_model.specs.declared.index.Index.{Index as Involution};
ghost use Rattle.dd_branch_degrees.specs.Automorphism.{AreAutomorphisms, IsBehind, IsAutomorphism, IsWithin, along_list};
ghost use Rattle.dd_branch_degrees.specs.declared.automorphisms.Automorphism.{Automorphism as Turned};

use arrayvec::ArrayVec;
use dd_model::{Index, Memory};
use dd_symbol::Symbol;
use std::alloc::Global;
use std::cmp::Ordering;

/// Where each chamber of a table goes if chamber 1 goes to another one, and neighbors to neighbors.
#[derive(Drop)]
pub struct Automorphism {
    pub chambers: ArrayVec<u8, 36>,
}

/// The first numbers of some.
fn first_of(numbers: &[u8; 36], count: u32) -> ArrayVec<u8, 36>
    requires { count ≤ 36 }
    ensures { length result.items ≡ count }
{
    let mut list = ArrayVec::new();
    for k in 0..count {
        list.push(numbers[k as usize]);
    }
    list
}

/// Where a chamber goes, its neighbor goes to the neighbor there.
fn lead(s: &Symbol, found: &mut [u8; 36], i: Index, chamber: u32, there: u32)
    requires small { s.now.size ≤ 36 }
    requires chamber { IsChamber s.now chamber }
    requires there { IsChamber s.now there }
{
    let neighbor = s.op(i, chamber);
    found[neighbor as usize - 1] = s.op(i, there) as u8;
}

/// Where the chambers go, if they go anywhere together. Chamber 1 leads to each other one.
fn follow(s: &Symbol, start: u32) -> ArrayVec<u8, 36>
    requires small { s.now.size ≤ 36 }
    requires start { IsChamber s.now start }
    ensures { length result.items ≡ s.now.size }
{
    let mut found = [0; 36];
    found[0] = start as u8;
    for k in 0..s.size() {
        let there = u32::from(found[k as usize]);
        if there >= 1 && there <= s.size() {
            lead(s, &mut found, Index::Zero, k + 1, there);
            lead(s, &mut found, Index::One, k + 1, there);
            lead(s, &mut found, Index::Two, k + 1, there);
        }
    }
    first_of(&found, s.size())
}

/// Which place has each number of a list, where each is at one.
fn undone(list: &ArrayVec<u8, 36>) -> ArrayVec<u8, 36>
    ensures { length result.items ≡ length list.now.items }
{
    let mut back = [0; 36];
    for k in 0..list.len() {
        let chamber = list[k] as usize;
        if chamber >= 1 && chamber <= 36 {
            back[chamber - 1] = k as u8 + 1;
        }
    }
    first_of(&back, list.len() as u32)
}

/// Returns whether a list undoes another one.
fn undoes(back: &ArrayVec<u8, 36>, list: &ArrayVec<u8, 36>) -> bool
    requires { length back.now.items ≡ length list.now.items }
    ensures { IsTrue result → Undoes (length list.now.items) back.now.items list.now.items }
{
    let back = back.as_slice();
    let list = list.as_slice();
    for k in 0..list.len() {
        let chamber = list[k] as usize;
        if chamber < 1 || chamber > list.len() {
            return false;
        }
        if back[chamber - 1] as usize != k + 1 {
            return false;
        }
    }
    true
}

/// Returns whether the neighbor of a chamber goes to the neighbor of where the chamber goes.
fn goes_along_with(s: &Symbol, list: &[u8], i: Index, chamber: u32) -> bool
    requires length { length list.now ≡ s.now.size }
    requires chamber { IsChamber s.now chamber }
    requires there { IsChamber s.now (item list.now chamber) }
    ensures { IsTrue result
        → item list.now (op s.now i chamber) ≡ op s.now i (item list.now chamber) }
{
    let there = u32::from(list[chamber as usize - 1]);
    let neighbor = s.op(i, chamber);
    u32::from(list[neighbor as usize - 1]) == s.op(i, there)
}

/// Returns whether all three neighbors of a chamber do.
fn goes_along_at(s: &Symbol, list: &[u8], chamber: u32) -> bool
    requires length { length list.now ≡ s.now.size }
    requires chamber { IsChamber s.now chamber }
    requires there { IsChamber s.now (item list.now chamber) }
    ensures { IsTrue result → (i : Involution)
        → item list.now (op s.now i chamber) ≡ op s.now i (item list.now chamber) }
{
    goes_along_with(s, list, Index::Zero, chamber)
        && goes_along_with(s, list, Index::One, chamber)
        && goes_along_with(s, list, Index::Two, chamber)
}

/// Returns whether all neighbors do.
fn goes_along(s: &Symbol, list: &[u8]) -> bool
    requires length { length list.now ≡ s.now.size }
    requires there { (k : ℕ) → IsChamber s.now k → IsChamber s.now (item list.now k) }
    ensures { IsTrue result → (i : Involution) (k : ℕ) → IsChamber s.now k
        → item list.now (op s.now i k) ≡ op s.now i (item list.now k) }
{
    for k in 0..s.size() {
        if !goes_along_at(s, list, k + 1) {
            return false;
        }
    }
    true
}

/// Returns whether a list says where the chambers go together.
fn is_automorphism(s: &Symbol, start: u32, list: &ArrayVec<u8, 36>, back: &ArrayVec<u8, 36>) -> bool
    requires list { length list.now.items ≡ s.now.size }
    requires back { length back.now.items ≡ s.now.size }
    ensures { IsTrue result → IsAutomorphism s.now start list.now.items }
{
    if !undoes(back, list) {
        return false;
    }
    if !undoes(list, back) {
        return false;
    }
    if s.size() < 1 || u32::from(list[0]) != start {
        return false;
    }
    goes_along(s, list.as_slice())
}

impl Automorphism {
    /// Returns the automorphism that takes chamber 1 to a start, if there is one. The chambers that
    /// were followed are checked afterwards, since a start from which the table is not numbered as
    /// it is has no automorphism.
    pub(crate) fn to(s: &Symbol, start: u32) -> Option<Automorphism>
        requires small { s.now.size ≤ 36 }
        requires start { IsChamber s.now start }
        ensures { IfSome result (λ automorphism.
            IsAutomorphism s.now start automorphism.chambers.items) }
    {
        let chambers = follow(s, start);
        let back = undone(&chambers);
        if is_automorphism(s, start, &chambers, &back) {
            return Some(Automorphism { chambers });
        }
        None
    }
}

/// How numbers of chambers stand to those of the chambers to which these go.
fn stands(own: &[u8], list: &[u8]) -> Ordering
    requires { IsWithin (length own.now) list.now }
    ensures { result ≡ slice_cmp nat_cmp own.now (along_list list.now own.now) }
{
    for k in 0..own.len() {
        let order = own[k].cmp(&own[list[k] as usize - 1]);
        if order.is_ne() {
            return order;
        }
    }
    Ordering::Equal
}

/// Returns whether degrees are greater than those of the chambers to which an automorphism sends
/// theirs.
fn are_behind(list: &[u8], m01: &[u8], m12: &[u8]) -> bool
    requires tiles { IsWithin (length m01.now) list.now }
    requires vertices { IsWithin (length m12.now) list.now }
    ensures { IsTrue result ↔ IsBehind list.now m01.now m12.now }
{
    let tiles = stands(m01, list);
    if tiles.is_ne() {
        return tiles.is_gt();
    }
    stands(m12, list).is_gt()
}

/// Returns whether no automorphism sends the chambers to smaller degrees.
pub(crate) fn none_is_smaller(automorphisms: &[Automorphism], m01: &[u8], m12: &[u8]) -> bool
    requires tiles { (j : ℕ) (x : Turned) → j < length automorphisms.now
        → IsWithin (length m01.now) (slice_index_or automorphisms.now j x).chambers.items }
    requires vertices { (j : ℕ) (x : Turned) → j < length automorphisms.now
        → IsWithin (length m12.now) (slice_index_or automorphisms.now j x).chambers.items }
    ensures { IsTrue result ↔ ((j : ℕ) (x : Turned) → j < length automorphisms.now
        → IsBehind (slice_index_or automorphisms.now j x).chambers.items m01.now m12.now → ⊥) }
{
    for k in 0..automorphisms.len() {
        if are_behind(automorphisms[k].chambers.as_slice(), m01, m12) {
            return false;
        }
    }
    true
}

/// The automorphisms to some chambers, if there is one to each.
pub(crate) fn automorphisms_to(
    alloc: Global,
    s: &Symbol,
    starts: &[u32],
) -> Result<Option<Vec<Automorphism>>, Memory>
    requires small { s.now.size ≤ 36 }
    requires starts { (d : ℕ) → Contains starts.now d → IsChamber s.now d }
    ensures { IfOk result (λ found. IfSome found (λ automorphisms.
        AreAutomorphisms s.now starts.now automorphisms.items)) }
{
    let mut automorphisms = Vec::new(alloc);
    for k in 0..starts.len() {
        let Some(automorphism) = Automorphism::to(s, starts[k]) else {
            return Ok(None);
        };
        automorphisms.push(automorphism)?;
    }
    Ok(Some(automorphisms))
}
