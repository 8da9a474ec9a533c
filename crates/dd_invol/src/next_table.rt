ghost use Rattle.std.specs.Prelude.{◌≡◌, ◌↔◌, ◌*◌, ◌≤◌, List, ℕ, IsTrue, MatchOption, length};
ghost use Rattle.std.specs.Bool.{OnTrue, OnFalse};
ghost use Rattle.dd_model.specs.Symbol.{AreInvolutions};
ghost use Rattle.dd_model.specs.Wanted.{AtMost};
ghost use Rattle.dd_model.specs.declared.pair.Pair.TheVariants.{Tile, Vertex};
ghost use Rattle.dd_symbol.specs.Images.{of_rows};
ghost use Rattle.dd_branch_tables.specs.Stem.{IsStem, prefix_of, size_of};
ghost use Rattle.dd_branch_tables.specs.Walk.{HasNoneLeft};
ghost use Rattle.dd_invol.specs.NextTable.{HasSought, IsSoughtAt, here};

use crate::cells::has_at_most;
use crate::tables::Tables;
use arrayvec::ArrayVec;
use dd_model::{Pair, Request};

/// Returns whether all images, in the order of codes, have no more cells than a request asks for.
fn has_limits(size: u8, images: &[u8], request: &Request) -> bool
    requires size { size ≤ 36 }
    requires whole { length images.now ≡ 3 * size }
    requires involutions { AreInvolutions (of_rows size images.now) }
    ensures { IsTrue result ↔ (AtMost (of_rows size images.now) Tile request.now.tiles
        × AtMost (of_rows size images.now) Vertex request.now.vertices) }
{
    has_at_most(size, images, Pair::Tile, request.tiles)
        && has_at_most(size, images, Pair::Vertex, request.vertices)
}

/// Returns whether the whole prefix of a search is that of a table that its request asks for.
fn is_sought(tables: &mut Tables) -> bool
    requires stem { IsStem tables.old.stem }
    requires whole { length (prefix_of tables.old.stem) ≡ 3 * size_of tables.old.stem }
    ensures same { tables.new ≡ tables.old }
    ensures sought { OnTrue result (HasSought tables.old.request (here tables.old.stem)) }
    ensures none { OnFalse result ((bound : List ℕ)
        → HasNoneLeft tables.old.request (here tables.old.stem) bound) }
{
    if !tables.is_least() {
        return false;
    }
    has_limits(tables.size(), tables.prefix(), tables.request())
}

/// Returns the same numbers, for a caller that keeps them.
pub(crate) fn kept(numbers: &[u8]) -> ArrayVec<u8, 108>
    requires { length numbers.now ≤ 108 }
    ensures { result.items ≡ numbers.now }
{
    let mut images = ArrayVec::new();
    for number in numbers {
        images.push(*number);
    }
    images
}

/// The images of the table of a whole prefix, where it is sought.
pub(crate) fn images_here(tables: &mut Tables) -> Option<ArrayVec<u8, 108>>
    requires stem { IsStem tables.old.stem }
    requires whole { length (prefix_of tables.old.stem) ≡ 3 * size_of tables.old.stem }
    ensures same { tables.new ≡ tables.old }
    ensures found { MatchOption result
        ((bound : List ℕ) → HasNoneLeft tables.old.request (here tables.old.stem) bound)
        (λ images. IsSoughtAt tables.old.request (here tables.old.stem) images.items) }
{
    if !is_sought(tables) {
        return None;
    }
    Some(kept(tables.prefix()))
}
