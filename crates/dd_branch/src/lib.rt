//! The search for the members of a catalogue under a job.
//!
//! The search fills in a code number by number, always trying the smallest number first, so members
//! appear in ascending order. For each job a `Descent` has the numbers of the job's prefix put in.
//! `find` and `advance` of dd_branch_tables are the one search for whatever is looked for: a loop
//! over levels, each with the numbers that are still to be tried at its prefix. `find` collects,
//! and the walk over tables stops at each.
//!
//! 1. *Which numbers can come next?* The image must be a chamber without an image, up to the first
//!    that was not met. `Stem::candidates` returns the set of these, from the bits of
//!    `PartialTable`. `TablePaths` (dd_branch_bounds) removes the numbers after which the shares of
//!    all chambers would be too small, or after which there would be more cells than the request
//!    allows (`sieve`). It looks only at the ends of the paths that a number joins, and at a census
//!    of the cells that are whole. Asking for all numbers at once lets what is the same for each be
//!    computed once, and what is left out leaves nothing to be taken back. A path of all chambers
//!    of a table of odd size is known to be a chain, so its share is that of a chain.
//! 2. *Put one in.* Each number, from the least on, is put into the table in place, with what
//!    commuting forces. An involution leads back, so an image and its way back are put in and taken
//!    out at once.
//! 3. *Absorb what follows.* Numbers that follow from others are no calls of their own. The longer
//!    prefix has the same symbols under it.
//! 4. *Is the prefix dead?* The paths are joined at their ends, without a walk. The prefix is given
//!    up in four cases. The total is too small. The size is odd and s0 moves chamber 1. The chamber
//!    whose image comes next was not met. The traversal from another chamber reads smaller.
//! 5. *Go on or go back.* What there was before is kept as a level (`UndoPoints`): the numbers
//!    of numbers and images, and the paths of the table. The paths are copied as a whole to the
//!    next level and changed there, so going back takes no copy.
//!
//! What is cut is proved to have no member under it. Tests that count the numbers put in show that
//! anything is cut at all. One kind of scratch is read by no clause: the other start chambers sleep
//! (`Starts`), each until the image is put in that its traversal lacked, and are then tried from
//! the beginning.
//!
//! A search keeps what it has put in for one job for the next of the same size (`Search`), whose
//! prefix mostly begins with the same numbers. It goes back to where both prefixes begin alike, and
//! on from there (`Descent::reach`). So the prefixes of an opening are put in once and not once a
//! job, and the room for a search is taken once a size. It also keeps the last prefix under which
//! it found that no member is, since the next jobs mostly begin with that one, too. Each thread has
//! a finder of its own (`fork`).
#![tactic(auto)]

mod descent;
mod job_descent;
mod laws;
mod search;
mod undo_point;
mod undo_points;

pub use dd_branch_degrees::{add_members_of, members_of};
pub use descent::Descent;
pub use laws::{
    a_front_emits_the_first_members, flat_symbols_have_small_shares,
    lists_under_an_opening_are_the_catalogue,
};
pub use search::Search;
