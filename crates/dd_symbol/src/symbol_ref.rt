ghost use Rattle.std.specs.Prelude.{◌≡◌};

use dd_model::Pair;
use dd_numbers::NumbersRef;
use std::marker::Model;

/// A symbol that is lent to a reader of many numbers: the form in which they are kept was asked for
/// once, so that what is read is one place of a slice.
#[derive(Drop)]
pub struct SymbolRef<'a> {
    pub(crate) numbers: NumbersRef<'a>,
    pub(crate) size: u32,
}

impl<'a> Model for SymbolRef<'a> {
    ghost use Rattle.std.specs.Prelude.{◌≡◌, ◌*◌, length};
    ghost use Rattle.dd_model.specs.Symbol.{Symbol as Tiling};
    ghost use Rattle.dd_symbol.specs.Images.{of_code};
    ghost use Rattle.dd_numbers.specs.Numbers.{lent_items};

    ghost Value = { Tiling };

    ghost view = { λ a. of_code a.size (lent_items a.numbers) };

    ghost invariant = { λ a. length (lent_items a.numbers) ≡ 5 * a.size };
}

impl<'a> SymbolRef<'a> {
    ghost use Rattle.dd_model.specs.Symbol.{IsChamber, degree};
    ghost use Rattle.dd_model.specs.Code.{images};

    /// The number of chambers.
    pub fn size(&self) -> u32
        ensures { result ≡ self.now.size }
    {
        self.size
    }

    /// The images of a chamber under s0, s1 and s2.
    pub fn images(&self, chamber: u32) -> [u32; 3]
        requires { IsChamber self.now chamber }
        ensures { result ≡ images self.now chamber }
    {
        self.numbers.three_from(3 * (chamber as usize - 1))
    }

    /// The degree of a pair at a chamber, which for edges is 2.
    pub fn degree(&self, pair: Pair, chamber: u32) -> u32
        requires { IsChamber self.now chamber }
        ensures { result ≡ degree self.now pair chamber }
    {
        let place = chamber as usize - 1;
        match pair {
            Pair::Tile => self.numbers.get(3 * self.size as usize + place),
            Pair::Vertex => self.numbers.get(4 * self.size as usize + place),
            Pair::Edge => 2,
        }
    }
}
