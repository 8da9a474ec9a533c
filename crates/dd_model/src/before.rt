ghost use Rattle.std.specs.Prelude.{◌≡◌, ◌↔◌, IfOk, IsTrue};
ghost use Rattle.dd_model.specs.Lists.{Begins, IsSmallerWhereTheyDiffer};
ghost use Rattle.dd_model.specs.Position.{IsWhollyBefore, IsWithin};

use crate::jobs::{Job, Position};
use crate::memory::Memory;

/// Returns whether the first list is smaller at the first place that both have and where they
/// differ.
fn is_smaller_where_they_differ(numbers: &[u8], others: &[u8]) -> bool
    ensures { IsTrue result ↔ IsSmallerWhereTheyDiffer numbers.now others.now }
{
    let shared = numbers.len().min(others.len());
    for k in 0..shared {
        if numbers[k] != others[k] {
            return numbers[k] < others[k];
        }
    }
    false
}

impl Position {
    /// An equal position.
    pub fn try_copy(&self) -> Result<Position, Memory>
        ensures { IfOk result (λ position. position ≡ self.now) }
    {
        match self {
            Position::At(place) => Ok(Position::At(place.try_copy()?)),
            Position::End => Ok(Position::End),
        }
    }
}

impl Job {
    /// Returns whether all that may be under the job is before a position.
    pub fn is_wholly_before(&self, position: &Position) -> bool
        ensures { IsTrue result ↔ IsWhollyBefore position.now self.now }
    {
        match position {
            Position::At(place) => {
                self.size < place.size
                    || self.size == place.size
                        && is_smaller_where_they_differ(
                            self.prefix.as_slice(),
                            place.prefix.as_slice(),
                        )
            }
            Position::End => true,
        }
    }

    /// Returns whether the job is of another's size, and its prefix begins with the other's.
    pub fn extends(&self, other: &Job) -> bool
        ensures { IsTrue result
            ↔ ((self.now.size ≡ other.now.size) × Begins other.now.prefix self.now.prefix) }
    {
        let numbers = self.prefix.as_slice();
        self.size == other.size && numbers.starts_with(other.prefix.as_slice())
    }

    /// Returns whether a position is at the job or further on in it.
    pub fn has_within(&self, position: &Position) -> bool
        ensures { IsTrue result ↔ IsWithin self.now position.now }
    {
        match position {
            Position::At(place) => place.extends(self),
            Position::End => false,
        }
    }
}
