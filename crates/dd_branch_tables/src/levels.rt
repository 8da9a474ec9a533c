ghost use Rattle.std.specs.Prelude.{◌≡◌, ◌<◌, [], ◌∷◌, length, MatchOption};

use crate::level::Level;
use arrayvec::ArrayVec;
use std::marker::Model;

/// The levels of a search: each prefix, on the way from where it began to where it stands, after
/// which it has put a number in and may put in others. A prefix has at most 108 numbers.
#[derive(Drop)]
pub struct Levels {
    levels: ArrayVec<Level, 109>,
}

impl Model for Levels {
    ghost use Rattle.std.specs.Prelude.{◌≤◌, List, length, reverse};
    ghost use Rattle.dd_branch_tables.specs.declared.level.Level.{Level};

    ghost Value = { List Level };

    // the last one first
    ghost view = { λ a. reverse a.levels.items };

    ghost invariant = { λ a. length (reverse a.levels.items) ≤ 109 };
}

impl Levels {
    /// No level, so that nothing is left to be tried.
    pub fn none() -> Levels
        ensures { result ≡ [] }
    {
        Levels {
            levels: ArrayVec::new(),
        }
    }

    /// Adds a level after the last one.
    pub(crate) fn push(&mut self, level: Level)
        requires { length self.old < 109 }
        ensures { self.new ≡ level ∷ self.old }
    {
        self.levels.push(level);
    }

    /// Takes the last level away; None where there is none.
    pub(crate) fn pop(&mut self) -> Option<Level>
        ensures level { MatchOption result (self.old ≡ [])
            (λ level. self.old ≡ level ∷ self.new) }
        ensures same { self.old ≡ [] → self.new ≡ [] }
        ensures room { length self.new < 109 }
    {
        self.levels.pop()
    }
}
