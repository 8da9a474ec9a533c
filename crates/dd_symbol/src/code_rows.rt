ghost use Rattle.std.specs.Prelude.{◌≡◌, ◌<◌, ◌≤◌, ◌*◌, ◌↔◌, IsTrue, IfOk, length};
ghost use Rattle.dd_model.specs.Small.{most_chambers};

use dd_model::{Index, Memory};
use dd_numbers::Numbers;
use std::alloc::Global;

/// The images of the chambers 1 to n, three for each, of which no more is known than their number.
/// After them may come degrees.
#[derive(Drop)]
pub(crate) struct CodeRows {
    pub(crate) numbers: Numbers,
    pub(crate) size: u32,
    ghost length: { 3 * size ≤ length numbers },
    ghost small: { size ≤ most_chambers },
}

impl CodeRows {
    ghost use Rattle.dd_symbol.specs.Images.{rows_of, of_rows};
    ghost use Rattle.dd_model.specs.Symbol.{IsChamber, op};

    /// The rows with these images, s0, s1 and s2 of chamber 1, then those of chamber 2 and so on,
    /// and with room for degrees.
    pub(crate) fn from_bytes(alloc: Global, images: &[u8], size: u32) -> Result<CodeRows, Memory>
        requires length { length images.now ≡ 3 * size }
        requires small { size ≤ most_chambers }
        ensures { IfOk result (λ rows. rows_of rows ≡ of_rows size images.now) }
    {
        let mut numbers = Numbers::with_room(alloc, 5 * size as usize)?;
        numbers.extend_bytes(images)?;
        Ok(CodeRows { numbers, size })
    }

    /// The number of chambers, at most 16,384.
    pub(crate) fn size(&self) -> u32
        ensures size { result ≡ (rows_of self.now).size }
        ensures small { result ≤ most_chambers }
    {
        self.size
    }

    /// Returns whether a chamber number is one of 1 to the size.
    pub(crate) fn has(&self, chamber: u32) -> bool
        ensures { IsTrue result ↔ IsChamber (rows_of self.now) chamber }
    {
        chamber >= 1 && chamber <= self.size
    }

    /// The image of a chamber under an involution.
    pub(crate) fn image(&self, i: Index, chamber: u32) -> u32
        requires { IsChamber (rows_of self.now) chamber }
        ensures { result ≡ op (rows_of self.now) i chamber }
    {
        self.numbers
            .get(3 * (chamber as usize - 1) + usize::from(i.number()))
    }
}
