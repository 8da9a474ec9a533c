ghost use Rattle.std.specs.Prelude.{◌≡◌, ℕ, ◌≤◌, List, [], ◌∷◌, map, length, IfOk, OnOk};
ghost use Rattle.dd_model.specs.Small.{most_chambers};

use crate::code_rows::CodeRows;
use crate::code_table::CodeTable;
use crate::involutions::Involutions;
use crate::maps::item;
use dd_model::{Index, Memory, Pair};
use dd_numbers::Numbers;
use std::alloc::Global;

impl Involutions {
    ghost use Rattle.dd_model.specs.declared.index.Index.{Index as Letter};
    ghost use Rattle.dd_symbol.specs.Images.{AreThreeInvolutions};
    ghost use Rattle.dd_symbol.specs.Maps.{AreInverse, IsCarried};
    ghost use Rattle.dd_model.specs.Symbol.{IsChamber, item, op};
    ghost use Rattle.dd_model.specs.Code.{images};

    /// The images of a chamber under s0, s1 and s2.
    fn images(&self, chamber: u32) -> [u32; 3]
        requires { IsChamber self.now chamber }
        ensures images { result ≡ images self.now chamber }
        ensures within { (i : Letter) → IsChamber self.now (op self.now i chamber) }
    {
        self.rows
            .numbers
            .lend()
            .three_from(3 * (chamber as usize - 1))
    }

    /// The images of a chamber, all in the numbers that a map gives.
    fn carried(&self, map: &[u32], back: &[u32], chamber: u32) -> [u32; 3]
        requires maps { AreInverse self.now.size map.now back.now }
        requires chamber { IsChamber self.now chamber }
        ensures { result ≡ item map.now (op self.now Index.Zero (item back.now chamber))
            ∷ item map.now (op self.now Index.One (item back.now chamber))
            ∷ item map.now (op self.now Index.Two (item back.now chamber)) ∷ [] }
    {
        let images = self.images(item(back, chamber));
        [
            item(map, images[0]),
            item(map, images[1]),
            item(map, images[2]),
        ]
    }

    /// Returns the same involutions under the numbers that a map gives.
    fn renumbered(&self, alloc: Global, map: &[u32], back: &[u32]) -> Result<Involutions, Memory>
        requires maps { AreInverse self.now.size map.now back.now }
        ensures carried { IfOk result (λ it. IsCarried self.now it map.now back.now) }
        ensures three { IfOk result (λ it. AreThreeInvolutions it) }
    {
        let mut numbers = Numbers::with_room_for(alloc, self.size() as usize)?;
        for k in 0..self.size() {
            numbers.push_row(alloc, self.carried(map, back, k + 1))?;
        }
        Ok(Involutions {
            rows: CodeRows {
                numbers,
                size: self.size(),
            },
        })
    }
}

impl CodeTable {
    ghost use Rattle.dd_symbol.specs.Table.{symbol_of};
    ghost use Rattle.dd_symbol.specs.Maps.{AreInverse};
    ghost use Rattle.dd_model.specs.Symbol.{IsChamber, degree, item};
    ghost use Rattle.dd_model.specs.Isomorphic.{IsIsomorphism};

    /// The degrees of all chambers in the order that a map back gives.
    fn degrees_in(&self, alloc: Global, pair: Pair, back: &[u32]) -> Result<Vec<u32>, Memory>
        requires within { (e : ℕ) → 1 ≤ e → e ≤ length back.now
            → IsChamber (symbol_of self.now) (item back.now e) }
        requires size { length back.now ≤ most_chambers }
        ensures { IfOk result (λ degrees.
            degrees.items ≡ map (degree (symbol_of self.now) pair) back.now) }
    {
        let mut degrees = Vec::with_capacity(alloc, back.len())?;
        let own = self.lend();
        for k in 0..back.len() as u32 {
            degrees.push(own.degree(pair, item(back, k + 1)))?;
        }
        Ok(degrees)
    }

    /// Returns the same chambers under the numbers that a map gives.
    pub(crate) fn renumbered(
        &self,
        alloc: Global,
        map: &[u32],
        back: &[u32],
    ) -> Result<CodeTable, Memory>
        requires maps { AreInverse (symbol_of self.now).size map.now back.now }
        ensures { IfOk result (λ table.
            IsIsomorphism (symbol_of self.now) (symbol_of table) map.now) }
    {
        let involutions = self.involutions.renumbered(alloc, map, back)?;
        let m01 = self.degrees_in(alloc, Pair::Tile, back)?;
        let m12 = self.degrees_in(alloc, Pair::Vertex, back)?;
        Ok(CodeTable {
            involutions: involutions.followed_by(alloc, &m01, &m12)?,
        })
    }
}
