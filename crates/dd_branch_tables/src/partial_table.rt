ghost use Rattle.std.specs.Prelude.{◌≡◌, ◌≢◌, ℕ, ◌+◌, ◌-◌, ◌*◌, ◌/◌, ◌%◌, ◌≤◌, ◌<◌, length, drop, slice_index};
ghost use Rattle.std.specs.Bool.{OnTrue, OnFalse};
ghost use Rattle.dd_model.specs.Symbol.{op};
ghost use Rattle.dd_front_jobs.specs.Places.{place, back_of, bits_of};
ghost use Rattle.dd_model.specs.Indices.{index_at};

use crate::chamber_set::ChamberSet;
use arrayvec::ArrayVec;
use dd_model::Index;
use std::marker::Model;

/// The place of the image of a chamber in a code, places being counted from 0.
pub fn place_of(i: Index, chamber: u8) -> u8
    requires low { 1 ≤ chamber }
    requires high { chamber ≤ 36 }
    ensures place { result ≡ place i chamber }
    ensures inside { result < 108 }
{
    3 * (chamber - 1) + i.number()
}

/// The involution of a place.
pub fn index_at(place: u8) -> Index
    ensures { result ≡ index_at (place % 3) }
{
    match place % 3 {
        0 => Index::Zero,
        1 => Index::One,
        _ => Index::Two,
    }
}

/// The place at which the image of a place leads back; the place itself where no image is known.
pub(crate) fn back_of(place: u8, image: u8) -> u8
    requires place { place < 108 }
    requires image { image ≤ 36 }
    ensures back { result ≡ back_of place image }
    ensures inside { result < 108 }
{
    if image == 0 {
        return place;
    }
    3 * (image - 1) + place % 3
}

/// A chamber and its image as bits.
fn bits_of(chamber: u8, image: u8) -> u64
    requires chamber { chamber ≤ 36 }
    requires image { image ≤ 36 }
    ensures { result ≡ bits_of chamber image }
{
    (1 << chamber) | (1 << image)
}

/// What is known of three involutions of at most 36 chambers. No call allocates. It keeps
///
/// - the images in the order of codes, where 0 is an image that is not known;
/// - for each involution the chambers whose images are not known, as bits;
/// - one of each two places that were filled at once, since an involution leads back. They are in
///   order, so that both can be cleared again.
#[derive(Drop)]
pub struct PartialTable {
    size: u8,
    numbers: [u8; 108],
    free: [u64; 3],
    trail: ArrayVec<u8, 108>,
}

impl Model for PartialTable {
    ghost use Rattle.dd_branch_tables.specs.Rows.{Rows, IsReady};

    ghost Value = { Rows };

    ghost use Rattle.dd_branch_tables.specs.Kept.{rows_of};

    ghost view = { rows_of };

    ghost invariant = { λ a. IsReady (rows_of a) };
}

impl PartialTable {
    ghost use Rattle.dd_branch_tables.specs.Chambers.{bit_of};
    ghost use Rattle.dd_branch_tables.specs.Rows.{partial_of, depth_of, unwound, IsReady, HasNumberAt, Learns, Excludes, Commutes};
    ghost use Rattle.dd_branch_tables.specs.Commuting.{CommutesAt, IsCommuting, KeepsCommuting, KeepsOthers};

    /// A table in which nothing is known.
    pub fn empty(size: u8) -> PartialTable
        requires { (1 ≤ size) × (size ≤ 36) }
        ensures ready { IsReady result }
        ensures size { (partial_of result).size ≡ size }
        ensures nothing { (i : Index) (d : ℕ) → op (partial_of result) i d ≡ 0 }
        ensures depth { depth_of result ≡ 0 }
    {
        let trail = ArrayVec::new();
        let numbers = [0; 108];
        PartialTable {
            size,
            numbers,
            free: [u64::MAX; 3],
            trail,
        }
    }

    /// The number of chambers.
    pub fn size(&self) -> u8
        ensures size { result ≡ (partial_of self.now).size }
        ensures ready { IsReady self.now }
    {
        self.size
    }

    /// The image of a chamber, or 0 where it is not known.
    pub fn known(&self, i: Index, chamber: u8) -> u8
        requires low { 1 ≤ chamber }
        requires high { chamber ≤ 36 }
        ensures image { result ≡ op (partial_of self.now) i chamber }
        ensures within { result ≤ (partial_of self.now).size }
    {
        self.numbers[place_of(i, chamber) as usize]
    }

    /// The number at a place of the code, or 0 where it is not known.
    pub fn number_at(&self, place: u8) -> u8
        requires place { place < 108 }
        ensures number { HasNumberAt place result (partial_of self.now) }
        ensures within { result ≤ (partial_of self.now).size }
    {
        let place = place as usize;
        self.numbers[place]
    }

    /// The place at which the image of a place leads back; the place itself where no image is
    /// known.
    pub(crate) fn back_from(&self, place: u8) -> u8
        requires place { place < 108 }
        ensures back { result ≡ back_of place (slice_index self.now.numbers place) }
        ensures inside { result < 108 }
    {
        back_of(place, self.numbers[place as usize])
    }

    /// The chambers up to a number whose images are not known.
    pub(crate) fn free_to(&self, i: Index, last: u8) -> ChamberSet
        requires last { last ≤ (partial_of self.now).size }
        ensures taken { (d : ℕ) → 1 ≤ d → d ≤ last → bit_of result d ≡ 0
            → op (partial_of self.now) i d ≢ 0 }
        ensures chambers { (d : ℕ) → bit_of result d ≡ 1 → d ≤ last }
    {
        ChamberSet::of_bits(self.free[place_of(i, 1) as usize], last)
    }

    /// How much was put in.
    pub fn mark(&self) -> usize
        ensures { result ≡ depth_of self.now }
    {
        self.trail.len()
    }

    /// The places that were filled after a mark, in order, one of each two that lead to each other.
    pub fn filled(&self, mark: usize) -> &[u8]
        ensures places { result.now ≡ drop mark self.now.trail }
        ensures inside { (k : ℕ) → k < length result.now → slice_index result.now k < 108 }
        ensures ready { IsReady self.now }
    {
        let places = self.trail.as_slice();
        &places[mark.min(places.len())..]
    }

    /// Takes out what was put in after a mark.
    pub fn undo(&mut self, mark: usize)
        ensures ready { IsReady self.new }
        ensures undone { self.new ≡ unwound self.old mark }
    {
        while self.trail.len() > mark {
            if let Some(place) = self.trail.pop() {
                let image = self.numbers[place as usize];
                let back = back_of(place, image);
                self.numbers[place as usize] = 0;
                self.numbers[back as usize] = 0;
                self.free[(place % 3) as usize] ^= bits_of(1 + place / 3, image);
            }
        }
    }

    /// Puts in that an involution exchanges two chambers, or fixes one, unless that cannot be.
    pub fn join(&mut self, i: Index, chamber: u8, image: u8) -> bool
        requires chamber { (1 ≤ chamber) × (chamber ≤ (partial_of self.old).size) }
        requires image { (1 ≤ image) × (image ≤ (partial_of self.old).size) }
        ensures ready { IsReady self.new }
        ensures learnt { OnTrue result (Learns (λ s. op s i chamber ≡ image) self.old self.new) }
        ensures told { OnTrue result (op (partial_of self.new) i chamber ≡ image) }
        ensures others { OnTrue result
            (KeepsOthers i chamber image (partial_of self.old) (partial_of self.new)) }
        ensures same { OnFalse result (self.new ≡ self.old) }
        ensures clash { OnFalse result (Excludes (λ s. op s i chamber ≡ image) self.old) }
    {
        prove!(chamber <= self.size);
        let place = place_of(i, chamber);
        let known = self.numbers[place as usize];
        if known == image {
            return true;
        }
        let back = place_of(i, image);
        if known != 0 || self.numbers[back as usize] != 0 {
            return false;
        }
        self.numbers[place as usize] = image;
        self.numbers[back as usize] = chamber;
        self.free[(place % 3) as usize] ^= bits_of(chamber, image);
        self.trail.push(place);
        true
    }

    /// Puts in the image that commuting forces round a chamber, unless it cannot be.
    fn fill(&mut self, chamber: u8) -> bool
        requires chamber { (1 ≤ chamber) × (chamber ≤ (partial_of self.old).size) }
        ensures ready { IsReady self.new }
        ensures learnt { OnTrue result (Learns Commutes self.old self.new) }
        ensures commutes { OnTrue result (CommutesAt (partial_of self.new) chamber) }
        ensures kept { OnTrue result
            (KeepsCommuting (partial_of self.old) (partial_of self.new)) }
        ensures same { OnFalse result (self.new ≡ self.old) }
        ensures clash { OnFalse result (Excludes Commutes self.old) }
    {
        prove!(chamber <= self.size());
        let zero = self.known(Index::Zero, chamber);
        let two = self.known(Index::Two, chamber);
        if zero == 0 || two == 0 {
            return true;
        }
        let opposite = self.known(Index::Two, zero);
        if opposite != 0 {
            return self.join(Index::Zero, two, opposite);
        }
        let opposite = self.known(Index::Zero, two);
        if opposite != 0 {
            return self.join(Index::Two, zero, opposite);
        }
        true
    }

    /// Puts in the number at a place of a code, and what follows by commuting, unless it cannot be.
    pub fn put(&mut self, place: u8, number: u8) -> bool
        requires place { place < 3 * (partial_of self.old).size }
        ensures ready { IsReady self.new }
        ensures learnt { OnTrue result
            (Learns (λ s. Commutes s × HasNumberAt place number s) self.old self.new) }
        ensures told { OnTrue result (HasNumberAt place number (partial_of self.new)) }
        ensures positive { OnTrue result (1 ≤ number) }
        ensures commuting { OnTrue result (IsCommuting (partial_of self.old)
            → IsCommuting (partial_of self.new)) }
        ensures same { OnFalse result (self.new ≡ self.old) }
        ensures clash { OnFalse result
            (Excludes (λ s. Commutes s × HasNumberAt place number s) self.old) }
    {
        if number > self.size() {
            return false;
        }
        if number == 0 {
            return false;
        }
        let mark = self.mark();
        let chamber = 1 + place / 3;
        let i = index_at(place);
        if !self.join(i, chamber, number) {
            return false;
        }
        if i == Index::One {
            return true;
        }
        if !self.fill(chamber) {
            self.undo(mark);
            return false;
        }
        if number == chamber {
            return true;
        }
        if !self.fill(number) {
            self.undo(mark);
            return false;
        }
        true
    }
}
