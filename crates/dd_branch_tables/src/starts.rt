ghost use Rattle.std.specs.Prelude.{IsTrue};
ghost use Rattle.dd_branch_tables.specs.Stem.{Any, IsStem, prefix_of, size_of};
ghost use Rattle.dd_front_jobs.specs.Under.{HasNothingUnder};

use crate::sleepers::{NOWHERE, Sleepers};
use crate::stem::Stem;
use crate::traversal::{FirstVisits, Standing};
use std::marker::Model;

/// Start chambers whose traversals may still read smaller than a prefix that grows. Each sleeps
/// until the image is put in for want of which its traversal was not decided, and is then tried
/// from the beginning. One that sleeps on in error is not tried, and nothing is cut for it.
#[derive(Drop)]
pub struct Starts {
    sleepers: Sleepers,
    visit: FirstVisits,
}

impl Model for Starts {
    ghost Value = { Unit {0} };

    ghost view = { λ _. tt };
}

impl Starts {
    /// All chambers of a size but the first, which reads as the prefix itself.
    pub fn new(size: u8) -> Starts {
        Starts {
            sleepers: Sleepers::new(size),
            visit: FirstVisits::new(),
        }
    }

    /// How many times a start was moved.
    pub fn mark(&self) -> usize {
        self.sleepers.mark()
    }

    /// Moves back the starts that were moved after a mark.
    pub fn undo(&mut self, mark: usize) {
        self.sleepers.undo(mark);
    }

    /// Returns, as bits, the starts that wait for what was put into a stem since it had `numbers`
    /// numbers and its table had the mark `mark`.
    fn woken(&self, stem: &Stem, numbers: usize, mark: usize) -> u64
        requires { IsStem stem.now }
    {
        let mut woken = 0;
        let rows = stem.rows();
        for place in rows.filled(mark) {
            woken |= self.sleepers.at(*place) | self.sleepers.at(rows.back_from(*place));
        }
        for place in numbers..stem.prefix().len() {
            woken |= self.sleepers.at(place as u8);
        }
        woken
    }

    /// Returns whether the traversal from one of the starts that wait for what was put into a stem
    /// gives a smaller code, so that nothing is under its prefix. A tie is not smaller. `numbers`
    /// and `mark` are the numbers that the stem had before, and the mark of its table.
    pub fn any_beats(&mut self, stem: &Stem, numbers: usize, mark: usize) -> bool
        requires { IsStem stem.now }
        ensures { IsTrue result
            → HasNothingUnder Any (size_of stem.now) (prefix_of stem.now) }
    {
        let mut woken = self.woken(stem, numbers, mark);
        while woken != 0 {
            let start = woken.trailing_zeros() as u8;
            woken &= woken - 1;
            match stem.standing(start, &mut self.visit) {
                Standing::Smaller => return true,
                Standing::Larger => self.sleepers.send(start, NOWHERE),
                Standing::Open(place) => self.sleepers.send(start, place),
            }
        }
        false
    }
}
