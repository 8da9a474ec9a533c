ghost use Rattle.std.specs.Prelude.{◌≡◌, ◌↔◌, ◌≤◌, ◌<◌, ◌*◌, [], length, slice_index, IsTrue, IfOk, IfErr, OnOk, MatchOption};
ghost use Rattle.dd_symbol.specs.Building.{listed};
ghost use Rattle.dd_symbol.specs.Rows.{HasRows};
ghost use Rattle.dd_model.specs.Symbol.{op};
ghost use Rattle.dd_model.specs.Small.{most_chambers};

use crate::code_rows::CodeRows;
use crate::refusals::Refusal;
use dd_model::{Code, Index, Memory, Pair};
use dd_numbers::Numbers;
use std::alloc::Global;
use std::cmp::Ordering;
use std::marker::Model;

/// Three involutions of the chambers 1 to n, n at most 16,384. They are kept as rows of the three
/// images of each chamber, which is the order of codes. Where they belong to a symbol, its degrees
/// follow.
#[derive(Drop)]
pub struct Involutions {
    pub(crate) rows: CodeRows,
}

impl Model for Involutions {
    ghost use Rattle.dd_model.specs.Symbol.{Symbol as Tiling};
    ghost use Rattle.dd_symbol.specs.Images.{rows_of, AreThreeInvolutions};

    ghost Value = { Tiling };

    ghost view = { λ a. rows_of a.rows };

    ghost invariant = { λ a. AreThreeInvolutions (rows_of a.rows) };
}

/// The images of the chambers 1 to n under each of three maps, n at most 16,384.
#[derive(Drop)]
pub struct ImageLists<'a> {
    pub s0: &'a [u32],
    pub s1: &'a [u32],
    pub s2: &'a [u32],
    pub ghost ones: { length s1.now ≡ length s0.now },
    pub ghost twos: { length s2.now ≡ length s0.now },
    pub ghost small: { length s0.now ≤ most_chambers },
}

/// The images of three lists, chamber by chamber, with room for degrees.
fn interleaved(alloc: Global, lists: &ImageLists<'_>) -> Result<Numbers, Memory>
    ensures { IfOk result (λ numbers. HasRows
        (op (listed lists.now.s0.now lists.now.s1.now lists.now.s2.now [] []))
        (length lists.now.s0.now) numbers) }
{
    let ImageLists { s0, s1, s2 } = *lists;
    let mut numbers = Numbers::with_room_for(alloc, s0.len())?;
    for k in 0..s0.len() {
        numbers.push_row(alloc, [s0[k], s1[k], s2[k]])?;
    }
    Ok(numbers)
}

impl Involutions {
    ghost use Rattle.std.specs.Ordering.{nat_cmp};
    ghost use Rattle.std.specs.Cmp.Lexicographic.{slice_cmp};
    ghost use Rattle.dd_symbol.specs.Images.{of_rows, with_degrees, AreThreeInvolutions};
    ghost use Rattle.dd_symbol.specs.Refusals.{IsInvolutionsFault};
    ghost use Rattle.dd_model.specs.Symbol.{AreInvolutions, IsChamber, act, item, turn};
    ghost use Rattle.dd_model.specs.Code.{code};
    ghost use Rattle.dd_model.specs.Involutions.{HaveSameInvolutions};

    /// The involutions with these images, s0, s1 and s2 of chamber 1, then those of chamber 2 and
    /// so on; None where they are no involutions.
    pub fn from_bytes(
        alloc: Global,
        images: &[u8],
        size: u32,
    ) -> Result<Option<Involutions>, Memory>
        requires length { length images.now ≡ 3 * size }
        requires small { size ≤ most_chambers }
        ensures { IfOk result (λ found. MatchOption found
            (AreInvolutions (of_rows size images.now) → ⊥) (λ it. it ≡ of_rows size images.now)) }
    {
        let rows = CodeRows::from_bytes(alloc, images, size)?;
        match rows.check() {
            Ok(()) => Ok(Some(Involutions { rows })),
            Err(_) => Ok(None),
        }
    }

    /// The involutions with these images, in the same order, which are known to be those of some.
    pub fn from_known_bytes(alloc: Global, images: &[u8], size: u32) -> Result<Involutions, Memory>
        requires length { length images.now ≡ 3 * size }
        requires small { size ≤ most_chambers }
        requires involutions { AreInvolutions (of_rows size images.now) }
        ensures { IfOk result (λ it. it ≡ of_rows size images.now) }
    {
        Ok(Involutions {
            rows: CodeRows::from_bytes(alloc, images, size)?,
        })
    }

    /// The involutions with these lists of images; else the first cause why they are none.
    pub fn from_lists(alloc: Global, lists: &ImageLists<'_>) -> Result<Involutions, Refusal>
        ensures same { IfOk result (λ it.
            it ≡ listed lists.now.s0.now lists.now.s1.now lists.now.s2.now [] []) }
        ensures why { IfErr result (λ why. IsInvolutionsFault
            (listed lists.now.s0.now lists.now.s1.now lists.now.s2.now [] []) why) }
    {
        let numbers = interleaved(alloc, lists)?;
        let size = lists.s0.len() as u32;
        let rows = CodeRows { numbers, size };
        rows.check()?;
        Ok(Involutions { rows })
    }

    /// The involutions with these lists of images, which are known to be those of some.
    pub fn from_known(alloc: Global, lists: &ImageLists<'_>) -> Result<Involutions, Memory>
        requires { AreInvolutions
            (listed lists.now.s0.now lists.now.s1.now lists.now.s2.now [] []) }
        ensures { IfOk result (λ it.
            it ≡ listed lists.now.s0.now lists.now.s1.now lists.now.s2.now [] []) }
    {
        let numbers = interleaved(alloc, lists)?;
        let size = lists.s0.len() as u32;
        Ok(Involutions {
            rows: CodeRows { numbers, size },
        })
    }

    /// The number of chambers, at most 16,384.
    pub fn size(&self) -> u32
        ensures size { result ≡ self.now.size }
        ensures three { AreThreeInvolutions self.now }
    {
        self.rows.size()
    }

    /// The image of a chamber.
    pub fn op(&self, i: Index, chamber: u32) -> u32
        requires { IsChamber self.now chamber }
        ensures image { result ≡ op self.now i chamber }
        ensures chamber { IsChamber self.now result }
        ensures three { AreThreeInvolutions self.now }
    {
        self.rows.image(i, chamber)
    }

    /// The number at a place of the code.
    pub(crate) fn number_at(&self, place: usize) -> u32
        requires { place < length (code self.now) }
        ensures { result ≡ slice_index (code self.now) place }
    {
        self.rows.numbers.get(place)
    }

    /// A copy of the code.
    pub(crate) fn code(&self, alloc: Global) -> Result<Code, Memory>
        ensures { IfOk result (λ numbers. numbers ≡ code self.now) }
    {
        Ok(Code::from_vec(self.rows.numbers.words(alloc)?))
    }

    /// By code, where there are as many chambers and degrees.
    pub(crate) fn cmp_code(&self, other: &Involutions) -> Ordering
        requires { length (code self.now) ≡ length (code other.now) }
        ensures { result ≡ slice_cmp nat_cmp (code self.now) (code other.now) }
    {
        self.rows.numbers.cmp(&other.rows.numbers)
    }

    /// Returns whether these are the same three involutions of as many chambers.
    pub(crate) fn is_same(&self, other: &Involutions) -> bool
        ensures { IsTrue result ↔ HaveSameInvolutions other.now self.now }
    {
        self.rows.size == other.rows.size
            && self
                .rows
                .numbers
                .has_front_of(&other.rows.numbers, 3 * self.rows.size as usize)
    }

    /// Equal involutions.
    pub fn try_copy(&self, alloc: Global) -> Result<Involutions, Memory>
        ensures { IfOk result (λ copy. copy ≡ self.now) }
    {
        Ok(Involutions {
            rows: CodeRows {
                numbers: self.rows.numbers.try_copy(alloc)?,
                size: self.rows.size,
            },
        })
    }

    /// Returns the same involutions, followed by degrees.
    pub(crate) fn followed_by(
        self,
        alloc: Global,
        m01: &[u32],
        m12: &[u32],
    ) -> Result<Involutions, Memory>
        requires tiles { length m01.now ≡ self.size }
        ensures { IfOk result (λ it. it ≡ with_degrees self m01.now m12.now) }
    {
        let CodeRows { mut numbers, size } = self.rows;
        numbers.truncate(3 * size as usize);
        numbers.extend(alloc, m01)?;
        numbers.extend(alloc, m12)?;
        Ok(Involutions {
            rows: CodeRows { numbers, size },
        })
    }

    /// Returns the same involutions, followed by degrees that fit in bytes.
    pub(crate) fn followed_by_bytes(self, m01: &[u8], m12: &[u8]) -> Result<Involutions, Memory>
        requires tiles { length m01.now ≡ self.size }
        ensures { IfOk result (λ it. it ≡ with_degrees self m01.now m12.now) }
    {
        let CodeRows { mut numbers, size } = self.rows;
        numbers.truncate(3 * size as usize);
        numbers.extend_bytes(m01)?;
        numbers.extend_bytes(m12)?;
        Ok(Involutions {
            rows: CodeRows { numbers, size },
        })
    }

    /// A copy of the involutions, followed by degrees that fit in bytes.
    pub(crate) fn copy_with(
        &self,
        alloc: Global,
        m01: &[u8],
        m12: &[u8],
    ) -> Result<Involutions, Memory>
        requires tiles { length m01.now ≡ self.now.size }
        ensures { IfOk result (λ it. it ≡ with_degrees self.now m01.now m12.now) }
    {
        let images = 3 * self.rows.size as usize;
        Ok(Involutions {
            rows: CodeRows {
                numbers: self.rows.numbers.front_with(alloc, images, m01, m12)?,
                size: self.rows.size,
            },
        })
    }

    /// The chamber to which one turn leads.
    pub fn turned(&self, pair: Pair, chamber: u32) -> u32
        requires { IsChamber self.now chamber }
        ensures image { result ≡ act self.now (turn pair) chamber }
        ensures chamber { IsChamber self.now result }
        ensures three { AreThreeInvolutions self.now }
    {
        let neighbor = self.op(pair.first(), chamber);
        self.op(pair.second(), neighbor)
    }
}
