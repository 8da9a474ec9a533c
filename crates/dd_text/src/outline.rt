ghost use Rattle.std.specs.Prelude.{◌≡◌, ◌+◌, ◌^◌, ◌<◌, ◌≤◌, ℕ, [], length, take, IfOk, OnErr, OnOk};
ghost use Rattle.dd_model.specs.Small.{IsSmallSymbol};
ghost use Rattle.dd_model.specs.Symbol.{IsChamber, Symbol as Tiling};
ghost use Rattle.dd_symbol.specs.Images.{with_degrees};
ghost use Rattle.dd_text.specs.Numbered.{IsNumbered};
ghost use Rattle.dd_text.specs.Outline.{HasCells, HasNumber, IsOutlineOf};
ghost use Rattle.dd_text.specs.Making.{IsBegun, IsFinished, TellsChamber};
ghost use Rattle.dd_text.specs.Writing.{AddsLine};

use crate::least::add_least;
use crate::line_numbers::count_up;
use crate::line_writer::{put_cells, put_image, put_number, put_ordinal};
use crate::told_degrees::put_told;
use dd_member_lists::Listed;
use dd_model::{Memory, Pair, put_bytes};
use dd_symbol::Symbol;
use std::alloc::Global;

/// What a line has in common with the next one. From line to line the number is counted up in its
/// digits, and what stands after it is written again only where the involutions are others.
#[derive(Drop)]
pub(crate) struct Outline {
    /// The line up to its degrees: `<1.k:n:` with the number n of chambers, the images of the three
    /// involutions, and `:`.
    pub(crate) head: Vec<u8>,
    /// Where the number k of the line ends.
    pub(crate) number_end: usize,
    /// The images of s1, while those of all three involutions are read.
    pub(crate) ones: Vec<u8>,
    /// The images of s2, while those of all three involutions are read.
    pub(crate) twos: Vec<u8>,
    /// The least chambers of the tiles.
    pub(crate) tiles: Vec<u32>,
    /// The least chambers of the vertices.
    pub(crate) vertices: Vec<u32>,
}

impl Outline {
    /// An outline of line number k that is not made yet.
    pub(crate) fn new(alloc: Global, k: u128) -> Result<Outline, Memory>
        ensures { IfOk result (λ outline. IsNumbered k [] outline.head.items outline.number_end) }
    {
        let mut head = Vec::new(alloc);
        put_bytes(&mut head, b"<1.")?;
        put_ordinal(&mut head, k)?;
        let number_end = head.len();
        Ok(Outline {
            head,
            number_end,
            ones: Vec::new(alloc),
            twos: Vec::new(alloc),
            tiles: Vec::new(alloc),
            vertices: Vec::new(alloc),
        })
    }

    /// Becomes the outline of the lines of the symbols with the involutions of a symbol. The loop
    /// over lines, which seldom comes here, is faster without this code in it.
    #[inline(never)]
    pub(crate) fn make(&mut self, symbol: &Symbol) -> Result<(), Memory>
        ensures { OnOk result ((k : ℕ) → HasNumber k self.old
            → IsOutlineOf k symbol.now self.new) }
    {
        self.begin(symbol)?;
        for k in 1..symbol.size() {
            self.tell(symbol, k + 1)?;
        }
        self.finish()
    }

    /// Keeps the number of the line, puts the number of chambers after it, and takes chamber 1,
    /// which is the least one of its cells.
    fn begin(&mut self, symbol: &Symbol) -> Result<(), Memory>
        ensures { OnOk result (IsBegun symbol.now self.old self.new) }
    {
        self.clear();
        put_bytes(&mut self.head, b":")?;
        put_number(&mut self.head, symbol.size())?;
        put_bytes(&mut self.head, b":")?;
        let [zero, one, two] = symbol.images(1);
        put_number(&mut self.head, zero)?;
        put_number(&mut self.ones, one)?;
        put_number(&mut self.twos, two)?;
        self.tiles.push(1)?;
        self.vertices.push(1)?;
        Ok(())
    }

    /// Keeps only the number of the line.
    fn clear(&mut self)
        ensures head { self.new.head.items ≡ take self.old.number_end self.old.head.items }
        ensures end { self.new.number_end ≡ self.old.number_end }
        ensures ones { self.new.ones.items ≡ [] }
        ensures twos { self.new.twos.items ≡ [] }
        ensures tiles { self.new.tiles.items ≡ [] }
        ensures vertices { self.new.vertices.items ≡ [] }
    {
        self.head.truncate(self.number_end);
        self.ones.clear();
        self.twos.clear();
        self.tiles.clear();
        self.vertices.clear();
    }

    /// Moves to another chamber: puts its images, and lists it if it is the least one of a cell.
    fn tell(&mut self, symbol: &Symbol, chamber: u32) -> Result<(), Memory>
        requires { IsChamber symbol.now chamber }
        ensures { OnOk result (TellsChamber symbol.now chamber self.old self.new) }
    {
        let [zero, one, two] = symbol.images(chamber);
        put_image(&mut self.head, chamber, zero)?;
        put_image(&mut self.ones, chamber, one)?;
        put_image(&mut self.twos, chamber, two)?;
        add_least(&mut self.tiles, symbol, Pair::Tile, chamber, zero, one)?;
        add_least(&mut self.vertices, symbol, Pair::Vertex, chamber, one, two)?;
        Ok(())
    }

    /// Puts the images of s1 and s2 after those of s0.
    fn finish(&mut self) -> Result<(), Memory>
        ensures { OnOk result (IsFinished self.old self.new) }
    {
        put_bytes(&mut self.head, b",")?;
        put_bytes(&mut self.head, &self.ones)?;
        put_bytes(&mut self.head, b",")?;
        put_bytes(&mut self.head, &self.twos)?;
        put_bytes(&mut self.head, b":")?;
        Ok(())
    }

    /// The outline of the lines of the symbols with the involutions of a symbol, at line number k.
    pub(crate) fn of(alloc: Global, k: u128, symbol: &Symbol) -> Result<Outline, Memory>
        ensures { IfOk result (λ outline. IsOutlineOf k symbol.now outline) }
    {
        let mut outline = Outline::new(alloc, k)?;
        outline.make(symbol)?;
        Ok(outline)
    }

    /// Moves from one symbol to the next. It makes the outline anew only if the involutions differ.
    pub(crate) fn follow(&mut self, last: &Symbol, next: &Symbol) -> Result<(), Memory>
        ensures { OnOk result ((k : ℕ) → IsOutlineOf k last.now self.old
            → IsOutlineOf k next.now self.new) }
    {
        if !next.has_involutions_of(last) {
            self.make(next)?;
        }
        Ok(())
    }

    /// Goes on to the next line number.
    pub(crate) fn advance(&mut self) -> Result<(), Memory>
        requires some { 3 ≤ self.old.number_end }
        requires within { self.old.number_end ≤ length self.old.head.items }
        ensures { OnOk result ((k : ℕ) (s : Tiling) → k + 1 < 10 ^ 64 → IsOutlineOf k s self.old
            → IsOutlineOf (k + 1) s self.new) }
    {
        self.number_end = count_up(&mut self.head, self.number_end)?;
        Ok(())
    }

    /// Appends the line of a symbol. It is put together here, so that the text grows once.
    pub(crate) fn put_line(&mut self, out: &mut Vec<u8>, symbol: &Symbol) -> Result<(), Memory>
        requires { HasCells symbol.now self.old }
        ensures line { OnOk result ((k : ℕ) → IsOutlineOf k symbol.now self.old
            → AddsLine k symbol.now out.old.items out.new.items) }
        ensures outline { OnOk result ((k : ℕ) (s : Tiling) → IsOutlineOf k s self.old
            → IsOutlineOf k s self.new) }
        ensures same { OnErr result (out.new.items ≡ out.old.items) }
    {
        let length = self.head.len();
        put_cells(&mut self.head, symbol, &self.tiles, &self.vertices)?;
        out.extend_from_slice(&self.head)?;
        self.head.truncate(length);
        Ok(())
    }

    /// Appends the line of a symbol of a list, likewise.
    pub(crate) fn put_listed(
        &mut self,
        out: &mut Vec<u8>,
        listed: &Listed<'_>,
    ) -> Result<(), Memory>
        requires small { IsSmallSymbol (with_degrees listed.now.table.now listed.now.m01.now
            listed.now.m12.now) }
        requires cells { HasCells (with_degrees listed.now.table.now listed.now.m01.now
            listed.now.m12.now) self.old }
        ensures line { OnOk result ((k : ℕ) → IsOutlineOf k (with_degrees listed.now.table.now
            listed.now.m01.now listed.now.m12.now) self.old → AddsLine k (with_degrees
            listed.now.table.now listed.now.m01.now listed.now.m12.now) out.old.items out.new.items) }
        ensures outline { OnOk result ((k : ℕ) (s : Tiling) → IsOutlineOf k s self.old
            → IsOutlineOf k s self.new) }
        ensures same { OnErr result (out.new.items ≡ out.old.items) }
    {
        let length = self.head.len();
        put_told(
            &mut self.head,
            listed.m01,
            &self.tiles,
            listed.m12,
            &self.vertices,
        )?;
        out.extend_from_slice(&self.head)?;
        self.head.truncate(length);
        Ok(())
    }
}
