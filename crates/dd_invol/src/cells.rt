//! The cells of three involutions whose images stand in one list.

ghost use Rattle.std.specs.Prelude.{◌≡◌, ◌↔◌, ℕ, ◌*◌, ◌≤◌, IsTrue, List, length};
ghost use Rattle.dd_model.specs.Symbol.{AreInvolutions, op};
ghost use Rattle.dd_model.specs.Cell.{IsLeastOfCell, AreCells};
ghost use Rattle.dd_model.specs.Wanted.{AtMost};
ghost use Rattle.dd_symbol.specs.Images.{of_rows};

use dd_branch_tables::place_of;
use dd_model::{Index, Pair};

/// The image of a chamber.
fn image_of(size: u8, images: &[u8], i: Index, chamber: u8) -> u8
    requires size { size ≤ 36 }
    requires whole { length images.now ≡ 3 * size }
    requires involutions { AreInvolutions (of_rows size images.now) }
    requires chamber { (1 ≤ chamber) × (chamber ≤ size) }
    ensures image { result ≡ op (of_rows size images.now) i chamber }
    ensures chamber { (1 ≤ result) × (result ≤ size) }
{
    images[place_of(i, chamber) as usize]
}

/// Returns whether a chamber is the least of its cell. The walk through the cell ends at a smaller
/// chamber, or where it comes back.
fn is_least_of_cell(size: u8, images: &[u8], pair: Pair, chamber: u8) -> bool
    requires size { size ≤ 36 }
    requires whole { length images.now ≡ 3 * size }
    requires involutions { AreInvolutions (of_rows size images.now) }
    requires chamber { (1 ≤ chamber) × (chamber ≤ size) }
    ensures { IsTrue result ↔ IsLeastOfCell (of_rows size images.now) pair chamber }
{
    let mut place = chamber;
    for _turn in 0..size {
        let neighbor = image_of(size, images, pair.first(), place);
        if neighbor < chamber {
            return false;
        }
        place = image_of(size, images, pair.second(), neighbor);
        if place < chamber {
            return false;
        }
        if place == chamber {
            return true;
        }
    }
    unreachable!()
}

/// The number of cells of a pair.
fn count(size: u8, images: &[u8], pair: Pair) -> u32
    requires size { size ≤ 36 }
    requires whole { length images.now ≡ 3 * size }
    requires involutions { AreInvolutions (of_rows size images.now) }
    ensures cells { (chambers : List ℕ) → AreCells (of_rows size images.now) pair chambers
        → result ≡ length chambers }
    ensures exist { (chambers : List ℕ) × AreCells (of_rows size images.now) pair chambers }
{
    let mut cells = 0;
    for k in 0..size {
        if is_least_of_cell(size, images, pair, k + 1) {
            cells += 1;
        }
    }
    cells
}

/// Returns whether a pair has at most `limit` cells, where 0 sets no limit. All images are in the
/// order of codes.
pub(crate) fn has_at_most(size: u8, images: &[u8], pair: Pair, limit: u32) -> bool
    requires size { size ≤ 36 }
    requires whole { length images.now ≡ 3 * size }
    requires involutions { AreInvolutions (of_rows size images.now) }
    ensures { IsTrue result ↔ AtMost (of_rows size images.now) pair limit }
{
    limit == 0 || count(size, images, pair) <= limit
}
