ghost use Rattle.std.specs.Prelude.{◌≡◌, ℕ, ◌+◌, ◌≤◌, ◌<◌, length, slice_index, slice_index_or};
ghost use Rattle.std.specs.Int.{bit_at};
ghost use Rattle.dd_branch_degrees.specs.LaterBudgets.{AreLaterBudgets, HasLaterBudget, HasSurplusWith};
ghost use Rattle.dd_branch_degrees.specs.declared.places.DegreeSlot.{DegreeSlot as Known};

use crate::places::DegreeSlot;
use arrayvec::ArrayVec;

/// What the degrees from each place on have of the budget together, whatever they will be.
#[derive(Drop)]
pub(crate) struct LaterBudgets {
    /// At each place, the sum of `most` of it and of the later places.
    pub(crate) most: [u16; 73],
    /// At each place, what it and the later places have at least: 2 for each side, that with the
    /// branching value 6.
    pub(crate) least: [u16; 73],
    /// At each place, what it and the later places may take beyond that, as bits from the top on:
    /// the bit of 0 is the highest. 64 and more is not kept.
    pub(crate) surplus: [u64; 73],
}

/// What the degrees from a place on may have beyond their least, by what the later ones may have.
///
/// If a chain may take 2 or 4, and the later ones together 2 or 4, then all may take 4, 6 or 8.
/// These are the bits 59, 57 and 55.
fn surplus_with(place: &DegreeSlot, later: u64) -> u64
    ensures { HasSurplusWith place.now later result }
{
    if place.sides == 0 {
        return later;
    }
    let mut all = 0;
    let mut shares = u64::from(place.shares);
    while shares != 0 {
        all |= later >> shares.trailing_zeros();
        shares &= shares - 1;
    }
    all
}

impl LaterBudgets {
    /// The sums over some places.
    pub(crate) fn of(places: &ArrayVec<DegreeSlot, 72>) -> LaterBudgets
        requires most { (j : ℕ) (x : Known) → j < length places.now.items
            → (slice_index_or places.now.items j x).most ≤ 24 }
        requires sides { (j : ℕ) (x : Known) → j < length places.now.items
            → (slice_index_or places.now.items j x).sides ≤ 2 }
        ensures { AreLaterBudgets places.now.items result }
    {
        let places = places.as_slice();
        let mut most = [0; 73];
        let mut least = [0; 73];
        let mut surplus = [0; 73];
        let mut place = places.len();
        surplus[place] = 1 << 63;
        while place > 0 {
            place -= 1;
            most[place] = most[place + 1] + u16::from(places[place].most);
            least[place] = least[place + 1] + u16::from(2 * places[place].sides);
            surplus[place] = surplus_with(&places[place], surplus[place + 1]);
        }
        LaterBudgets {
            most,
            least,
            surplus,
        }
    }

    /// Returns those of the shares of a place, as bits, that leave to the later places what these
    /// may take, if `left` is left for all. From 64 on that is not kept, and the most that they may
    /// take decides.
    ///
    /// If 8 is left, and the later places may take 2 or 4, then of the shares 2 and 4 only 4 fits.
    /// If 6 is left, both do.
    pub(crate) fn fitting(&self, later: usize, shares: u32, left: u16) -> u64
        requires later { later < 73 }
        requires small { left + slice_index self.now.least later ≤ 4096 }
        ensures within { (e : ℕ) → bit_at result e ≡ 1 → (bit_at shares e ≡ 1) × (e ≤ left) }
        ensures all { (e rest : ℕ) → e + rest ≡ left → bit_at shares e ≡ 1
            → HasLaterBudget self.now later rest → bit_at result e ≡ 1 }
    {
        let shares = u64::from(shares);
        if left < 64 {
            return shares & (self.surplus[later] >> (63 - left));
        }
        let short = (left + self.least[later]).saturating_sub(self.most[later]);
        if short > 31 {
            return 0;
        }
        shares >> short << short
    }
}
