ghost use Rattle.std.specs.Prelude.{◌≡◌, ℕ, ◌+◌, ◌<◌, ◌≤◌, ◌↔◌, ◌++◌, ◌∷◌, [], take, length, slice_index, IsTrue, IfSome, IfOk, OnOk};
ghost use Rattle.std.specs.Ordering.{nat_cmp};
ghost use Rattle.std.specs.Cmp.Lexicographic.{slice_cmp};
ghost use Rattle.dd_model.specs.Small.{most_chambers};

use crate::numbers_ref::NumbersRef;
use dd_model::Memory;
use smallvec::SmallVec;
use std::alloc::Global;
use std::cmp::Ordering;
use std::marker::Model;

/// How many bytes lie in the value itself: the code of a symbol of 22 chambers, which has 5 numbers
/// a chamber. A catalogue makes members by the million, and threads that each ask the allocator for
/// a hundred bytes a member wait for each other and for fresh pages. A list of such members is one
/// piece of memory.
const INLINE: usize = 110;

/// The two forms in which numbers are kept.
#[derive(Drop)]
enum Held {
    Bytes(SmallVec<u8, INLINE>),
    Words(Vec<u32>),
}

/// A list of numbers, which is kept in bytes up to the first number over 255. The bytes of a small
/// symbol lie in the value, and take no memory beyond it.
#[derive(Drop)]
pub struct Numbers {
    held: Held,
}

impl Model for Numbers {
    ghost use Rattle.std.specs.Prelude.{ℕ, List};
    ghost use Rattle.dd_numbers.specs.Numbers.{held_items};

    ghost Value = { List ℕ };

    ghost view = { λ a. held_items a.held };
}

/// Appends bytes to words.
fn add_bytes(words: &mut Vec<u32>, bytes: &[u8]) -> Result<(), Memory>
    ensures { OnOk result (words.new.items ≡ words.old.items ++ bytes.now) }
{
    for byte in bytes {
        words.push(u32::from(*byte))?;
    }
    Ok(())
}

/// Returns whether each of some numbers fits in a byte.
fn are_bytes(numbers: &[u32]) -> bool
    ensures { IsTrue result → (k : ℕ) → k < length numbers.now → slice_index numbers.now k < 256 }
{
    for number in numbers {
        if *number > 255 {
            return false;
        }
    }
    true
}

/// Appends numbers that fit in bytes. Room for all of them is made at once.
fn add_narrowed(bytes: &mut SmallVec<u8, INLINE>, numbers: &[u32]) -> Result<(), Memory>
    requires { (k : ℕ) → k < length numbers.now → slice_index numbers.now k < 256 }
    ensures { OnOk result (bytes.new.items ≡ bytes.old.items ++ numbers.now) }
{
    bytes.reserve(numbers.len())?;
    for number in numbers {
        bytes.push_reserved(*number as u8);
    }
    Ok(())
}

/// Three numbers as bytes, if each of them fits in one.
fn row_in_bytes(row: [u32; 3]) -> Option<[u8; 3]>
    ensures { IfSome result (λ bytes. bytes ≡ row) }
{
    let [a, b, c] = row;
    if a > 255 || b > 255 || c > 255 {
        return None;
    }
    Some([a as u8, b as u8, c as u8])
}

impl Numbers {
    ghost use Rattle.dd_numbers.specs.Numbers.{lent_items};

    /// No numbers, with room for some in bytes.
    pub fn with_room(alloc: Global, room: usize) -> Result<Numbers, Memory>
        ensures { IfOk result (λ it. it ≡ []) }
    {
        Ok(Numbers {
            held: Held::Bytes(SmallVec::with_capacity(alloc, room)?),
        })
    }

    /// Returns an empty list with room for the code of a symbol of `size` chambers. If there are
    /// more than 255 chambers, some numbers don't fit in a byte. The list then begins in words, so
    /// that it is not copied on the way.
    pub fn with_room_for(alloc: Global, size: usize) -> Result<Numbers, Memory>
        requires { size ≤ most_chambers }
        ensures { IfOk result (λ it. it ≡ []) }
    {
        let room = 5 * size;
        if size > 255 {
            return Ok(Numbers {
                held: Held::Words(Vec::with_capacity(alloc, room)?),
            });
        }
        Numbers::with_room(alloc, room)
    }

    /// How many there are.
    pub fn len(&self) -> usize
        ensures { result ≡ length self.now }
    {
        match &self.held {
            Held::Bytes(bytes) => bytes.len(),
            Held::Words(words) => words.len(),
        }
    }

    /// Returns the same numbers, for a reader that asks once in which form they are kept.
    pub fn lend(&self) -> NumbersRef<'_>
        ensures { lent_items result ≡ self.now }
    {
        match &self.held {
            Held::Bytes(bytes) => NumbersRef::Bytes(bytes.as_slice()),
            Held::Words(words) => NumbersRef::Words(words),
        }
    }

    /// The number at a place, counted from 0.
    pub fn get(&self, place: usize) -> u32
        requires { place < length self.now }
        ensures { result ≡ slice_index self.now place }
    {
        self.lend().get(place)
    }

    /// A copy in words.
    pub fn words(&self, alloc: Global) -> Result<Vec<u32>, Memory>
        ensures { IfOk result (λ words. words.items ≡ self.now) }
    {
        let mut all = Vec::with_capacity(alloc, self.len())?;
        match &self.held {
            Held::Bytes(bytes) => add_bytes(&mut all, bytes.as_slice())?,
            Held::Words(words) => all.extend_from_slice(words)?,
        }
        Ok(all)
    }

    /// Appends a number that does not fit in a byte.
    fn push_word(&mut self, alloc: Global, number: u32) -> Result<(), Memory>
        ensures { OnOk result (self.new ≡ self.old ++ number ∷ []) }
    {
        let mut words = self.words(alloc)?;
        words.push(number)?;
        *self = Numbers {
            held: Held::Words(words),
        };
        Ok(())
    }

    /// Appends a number.
    pub fn push(&mut self, alloc: Global, number: u32) -> Result<(), Memory>
        ensures { OnOk result (self.new ≡ self.old ++ number ∷ []) }
    {
        match &mut self.held {
            Held::Words(words) => {
                words.push(number)?;
                Ok(())
            }
            Held::Bytes(bytes) => match u8::try_from(number) {
                Ok(byte) => {
                    bytes.push(byte)?;
                    Ok(())
                }
                Err(_) => self.push_word(alloc, number),
            },
        }
    }

    /// Appends three numbers, in one step where they fit in bytes.
    pub fn push_row(&mut self, alloc: Global, row: [u32; 3]) -> Result<(), Memory>
        ensures { OnOk result (self.new ≡ self.old ++ row) }
    {
        match &mut self.held {
            Held::Words(words) => {
                words.extend_from_slice(&row)?;
                Ok(())
            }
            Held::Bytes(own) => match row_in_bytes(row) {
                Some(bytes) => {
                    own.extend_from_slice(&bytes)?;
                    Ok(())
                }
                None => self.push_each(alloc, &row),
            },
        }
    }

    /// Appends bytes.
    pub fn extend_bytes(&mut self, bytes: &[u8]) -> Result<(), Memory>
        ensures { OnOk result (self.new ≡ self.old ++ bytes.now) }
    {
        match &mut self.held {
            Held::Bytes(own) => own.extend_from_slice(bytes)?,
            Held::Words(words) => add_bytes(words, bytes)?,
        }
        Ok(())
    }

    /// Appends numbers one by one, as some of them may not fit in a byte.
    fn push_each(&mut self, alloc: Global, numbers: &[u32]) -> Result<(), Memory>
        ensures { OnOk result (self.new ≡ self.old ++ numbers.now) }
    {
        for number in numbers {
            self.push(alloc, *number)?;
        }
        Ok(())
    }

    /// Appends numbers.
    pub fn extend(&mut self, alloc: Global, numbers: &[u32]) -> Result<(), Memory>
        ensures { OnOk result (self.new ≡ self.old ++ numbers.now) }
    {
        match &mut self.held {
            Held::Words(words) => {
                words.extend_from_slice(numbers)?;
                Ok(())
            }
            Held::Bytes(own) => {
                if are_bytes(numbers) {
                    return add_narrowed(own, numbers);
                }
                self.push_each(alloc, numbers)
            }
        }
    }

    /// Keeps only the first numbers.
    pub fn truncate(&mut self, count: usize)
        ensures { self.new ≡ take count self.old }
    {
        match &mut self.held {
            Held::Bytes(bytes) => bytes.truncate(count),
            Held::Words(words) => words.truncate(count),
        }
    }

    /// The first numbers, and then the bytes of two lists.
    pub fn front_with(
        &self,
        alloc: Global,
        count: usize,
        first: &[u8],
        second: &[u8],
    ) -> Result<Numbers, Memory>
        requires { count ≤ length self.now }
        ensures { IfOk result (λ it. it ≡ (take count self.now ++ first.now) ++ second.now) }
    {
        let room = count
            .saturating_add(first.len())
            .saturating_add(second.len());
        let held = match &self.held {
            Held::Bytes(own) => {
                let mut all = SmallVec::with_capacity(alloc, room)?;
                all.extend_from_slice(&own.as_slice()[..count])?;
                all.extend_from_slice(first)?;
                all.extend_from_slice(second)?;
                Held::Bytes(all)
            }
            Held::Words(own) => {
                let mut all = Vec::with_capacity(alloc, room)?;
                all.extend_from_slice(&own[..count])?;
                add_bytes(&mut all, first)?;
                add_bytes(&mut all, second)?;
                Held::Words(all)
            }
        };
        Ok(Numbers { held })
    }

    /// Returns the same numbers.
    pub fn try_copy(&self, alloc: Global) -> Result<Numbers, Memory>
        ensures { IfOk result (λ copy. copy ≡ self.now) }
    {
        self.front_with(alloc, self.len(), &[], &[])
    }

    /// Returns whether the first numbers of two lists are equal.
    pub fn has_front_of(&self, other: &Numbers, count: usize) -> bool
        requires own { count ≤ length self.now }
        requires other { count ≤ length other.now }
        ensures { IsTrue result ↔ take count self.now ≡ take count other.now }
    {
        if let (Held::Bytes(own), Held::Bytes(others)) = (&self.held, &other.held) {
            return own.as_slice()[..count] == others.as_slice()[..count];
        }
        for place in 0..count {
            if self.get(place) != other.get(place) {
                return false;
            }
        }
        true
    }

    /// By the first place where they differ.
    pub fn cmp(&self, other: &Numbers) -> Ordering
        requires { length self.now ≡ length other.now }
        ensures { result ≡ slice_cmp nat_cmp self.now other.now }
    {
        for place in 0..self.len() {
            let order = self.get(place).cmp(&other.get(place));
            if order.is_ne() {
                return order;
            }
        }
        Ordering::Equal
    }
}
