ghost use Rattle.std.specs.Prelude.{◌≡◌, ◌+◌, ◌-◌, ◌*◌, ◌<◌, ◌≤◌, ◌++◌, OnOk, IfOk, IfErr};
ghost use Rattle.dd_model.specs.Small.{IsSmallSymbol};
ghost use Rattle.dd_model.specs.Symbol.{IsChamber};
ghost use Rattle.dd_template.specs.Applying.{IsFaultOf, HasSmallFactor};
ghost use Rattle.dd_template.specs.Lawful.{IsLawful};
ghost use Rattle.dd_template.specs.Made.{made, degree_of, moved};
ghost use Rattle.dd_template.specs.Table.{table_of};

use crate::tables::{Degree, Template};
use crate::undone::Undone;
use dd_model::{Index, Memory, Pair};
use dd_symbol::{Connected, Symbol, build_known_lists};
use std::alloc::Global;

/// The most chambers of a symbol that is made.
const MOST_CHAMBERS: u32 = 1024;

/// Why no symbol is made.
#[derive(Debug, Clone, Copy, PartialEq, Eq)]
pub enum ApplyFault {
    /// The symbol has n chambers, and what the table makes of it would have over 1,024.
    TooManyChambers { n: u32 },
    /// There was no room.
    Memory,
}

impl From<Memory> for ApplyFault {
    ghost use Rattle.dd_template.specs.declared.application.ApplyFault.TheVariants as fault;

    ghost from_gives = { λ _ why. why ≡ fault.Memory };

    fn from(_: Memory) -> Self {
        ApplyFault::Memory
    }
}

/// The chamber to which a move leads.
fn moved_by(symbol: &Symbol, by: Option<Index>, chamber: u32) -> u32
    requires { IsChamber symbol.now chamber }
    ensures image { result ≡ moved symbol.now by chamber }
    ensures chamber { IsChamber symbol.now result }
{
    match by {
        None => chamber,
        Some(index) => symbol.op(index, chamber),
    }
}

/// The degree that an entry gives at a chamber.
fn degree_at(s: &Connected, entry: Degree, chamber: u32) -> u32
    requires chamber { IsChamber s.now chamber }
    requires factor { HasSmallFactor entry }
    ensures { result ≡ degree_of s.now entry chamber }
{
    let symbol = s.symbol();
    match entry {
        Degree::OfTile(factor) => factor * symbol.m01(chamber),
        Degree::OfVertex(factor) => factor * symbol.m12(chamber),
        Degree::Fixed(degree) => degree,
    }
}

impl<'a, const K: usize> Undone<'a, K> {
    ghost use Rattle.dd_template.specs.Made.{image_of, made_operation, of_chamber};

    /// The number of a part of a chamber: the parts of chamber 1 come first.
    fn number_of(chamber: u32, part: usize) -> u32
        requires chamber { 1 ≤ chamber }
        requires small { chamber * K ≤ 1024 }
        requires part { part < K }
        ensures { result ≡ (chamber - 1) * K + part + 1 }
    {
        ((chamber as usize - 1) * K + part + 1) as u32
    }

    /// Appends the images of the parts of a chamber.
    fn push_images(
        &self,
        images: &mut Vec<u32>,
        symbol: &Symbol,
        index: Index,
        chamber: u32,
    ) -> Result<(), Memory>
        requires small { symbol.now.size * K ≤ 1024 }
        requires chamber { IsChamber symbol.now chamber }
        ensures { OnOk result (images.new.items ≡ images.old.items
            ++ of_chamber (table_of self.now.table.now)
            (image_of (table_of self.now.table.now) symbol.now index) chamber) }
    {
        for part in 0..K {
            let there = self.table.move_of(index, part);
            let home = moved_by(symbol, there.by, chamber);
            images.push(Self::number_of(home, there.to))?;
        }
        Ok(())
    }

    /// The images of all parts of all chambers.
    fn images(&self, alloc: Global, symbol: &Symbol, index: Index) -> Result<Vec<u32>, Memory>
        requires { symbol.now.size * K ≤ 1024 }
        ensures { IfOk result (λ images. images.items ≡
            made_operation (table_of self.now.table.now) symbol.now index) }
    {
        let mut images = Vec::with_capacity(alloc, symbol.size() as usize * K)?;
        for k in 0..symbol.size() {
            self.push_images(&mut images, symbol, index, k + 1)?;
        }
        Ok(images)
    }
}

impl<const K: usize> Template<K> {
    ghost use Rattle.dd_template.specs.Entries.{entries};
    ghost use Rattle.dd_template.specs.Made.{degree_from, made_degrees, of_chamber};

    /// Appends the degrees of the parts of a chamber.
    fn push_degrees(
        &self,
        degrees: &mut Vec<u32>,
        s: &Connected,
        pair: Pair,
        chamber: u32,
    ) -> Result<(), Memory>
        requires lawful { IsLawful (table_of self.now) }
        requires chamber { IsChamber s.now chamber }
        ensures { OnOk result (degrees.new.items ≡ degrees.old.items
            ++ of_chamber (table_of self.now) (degree_from s.now (entries (table_of self.now) pair))
            chamber) }
    {
        for part in 0..K {
            degrees.push(degree_at(s, self.entry_of(pair, part), chamber))?;
        }
        Ok(())
    }

    /// The degrees of all parts of all chambers.
    fn degrees(&self, alloc: Global, s: &Connected, pair: Pair) -> Result<Vec<u32>, Memory>
        requires lawful { IsLawful (table_of self.now) }
        requires small { s.now.size * K ≤ 1024 }
        ensures { IfOk result (λ degrees. degrees.items ≡
            made_degrees (table_of self.now) s.now (entries (table_of self.now) pair)) }
    {
        let mut degrees = Vec::with_capacity(alloc, s.symbol().size() as usize * K)?;
        for k in 0..s.symbol().size() {
            self.push_degrees(&mut degrees, s, pair, k + 1)?;
        }
        Ok(degrees)
    }
}

/// The symbol that a lawful table of K parts makes of a symbol, if it has at most 1,024 chambers.
/// Part x of chamber D, counted from 0, becomes chamber (D - 1) K + x + 1.
pub fn apply<const K: usize>(
    alloc: Global,
    template: &Template<K>,
    symbol: &Connected,
) -> Result<Connected, ApplyFault>
    requires { IsLawful (table_of template.now) }
    ensures made { IfOk result (λ derived. derived ≡ made (table_of template.now) symbol.now) }
    ensures within { OnOk result (symbol.now.size * K ≤ 1024) }
    ensures why { IfErr result (λ why. IsFaultOf (table_of template.now) symbol.now why) }
    ensures small { IsSmallSymbol symbol.now }
{
    let plain = symbol.symbol();
    let n = plain.size();
    if n as usize * K > MOST_CHAMBERS as usize {
        return Err(ApplyFault::TooManyChambers { n });
    }
    let undone = Undone { table: template };
    let ops = [
        undone.images(alloc, plain, Index::Zero)?,
        undone.images(alloc, plain, Index::One)?,
        undone.images(alloc, plain, Index::Two)?,
    ];
    let m01 = template.degrees(alloc, symbol, Pair::Tile)?;
    let m12 = template.degrees(alloc, symbol, Pair::Vertex)?;
    Ok(build_known_lists(alloc, ops, m01, m12)?)
}
