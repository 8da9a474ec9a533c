ghost use Rattle.std.specs.Prelude.{◌≡◌, ◌≢◌, ℕ, ◌-◌, ◌<◌, ◌≤◌, length, set, slice_index};
ghost use Rattle.dd_model.specs.declared.index.Index.{Index};
ghost use Rattle.dd_model.specs.Symbol.{IsChamber, op};
ghost use Rattle.dd_covers.specs.Shifts.{shifts_by, HaveSize};
ghost use Rattle.dd_covers.specs.Settling.{shift_of, IsPut, IsSettled, AreReady};

use crate::join::Join;
use crate::shifts::Shifts;
use crate::side::Side;
use dd_model::Index;
use dd_symbol::Symbol;

impl Shifts {
    /// Sets one shift.
    fn set(&mut self, i: Index, chamber: u32, shift: u32)
        requires low { 1 ≤ chamber }
        requires high { chamber ≤ length (shifts_by self.old i) }
        ensures own { shifts_by self.new i ≡ set (shifts_by self.old i) (chamber - 1) shift }
        ensures others { (j : Index) → (j ≡ i → ⊥) → shifts_by self.new j ≡ shifts_by self.old j }
    {
        let place = chamber as usize - 1;
        match i {
            Index::Zero => self.x0[place] = shift,
            Index::One => self.x1[place] = shift,
            Index::Two => self.x2[place] = shift,
        }
    }
}

/// What a side gets: what is wanting at its first end where that is the new cell, and else the
/// opposite of what is wanting at the other.
fn wanted(wants: &[u32], k: u32, join: &Join) -> u32
    requires some { 1 ≤ k }
    requires below { (n : ℕ) → slice_index wants.now n < k }
    requires from { join.now.side.from < length wants.now }
    requires to { join.now.side.to < length wants.now }
    ensures { result ≡ shift_of wants.now k join.now }
{
    if join.out {
        wants[join.side.from as usize]
    } else {
        (k - wants[join.side.to as usize]) % k
    }
}

/// Settles the cell that a side joins: the side gets what is wanting there, and so the cell at its
/// other end wants more.
pub(crate) fn settle(
    shifts: &mut Shifts,
    wants: &mut Vec<u32>,
    symbol: &Symbol,
    white: &[bool],
    k: u32,
    join: &Join,
)
    requires { AreReady symbol.now white.now k join.now shifts.old wants.old.items }
    ensures { IsSettled symbol.now white.now k join.now shifts.old wants.old.items
        shifts.new wants.new.items }
{
    let side = &join.side;
    let from = side.from as usize;
    let to = side.to as usize;
    let shift = wanted(wants.as_slice(), k, join);
    let back = (k - shift) % k;
    wants[from] = (wants[from] + (k - shift)) % k;
    wants[to] = (wants[to] + shift) % k;
    let there = symbol.op(side.index, side.chamber);
    if white[side.chamber as usize - 1] {
        shifts.set(side.index, side.chamber, shift);
        shifts.set(side.index, there, back);
    } else {
        shifts.set(side.index, side.chamber, back);
        shifts.set(side.index, there, shift);
    }
}
