ghost use Rattle.std.specs.Prelude.{◌≡◌, ◌≤◌, MatchOption};
ghost use Rattle.dd_opword.specs.Words.{IsSpelled, letters_of};
ghost use Rattle.dd_opword.specs.Meaning.{parts_of};
ghost use Rattle.dd_opword.specs.declared.words.OpWord.{OpWord as Word};

use crate::letters::Letter;

/// A word of one to three operations. The last one is done first.
#[derive(Debug, Clone, Copy, PartialEq, Eq)]
pub enum OpWord {
    /// One operation.
    One(Letter),
    /// The second operation, and then the first.
    Two(Letter, Letter),
    /// The third operation, then the second, and then the first.
    Three(Letter, Letter, Letter),
}

impl OpWord {
    /// Reads a word. Returns None if the text is not one to three of the letters `d`, `a`, `t` and
    /// `c`.
    pub fn read(text: &str) -> Option<OpWord>
        ensures { MatchOption result ((w : Word) → IsSpelled text.now w → ⊥) (IsSpelled text.now) }
    {
        match text.as_bytes() {
            [first] => Some(OpWord::One(Letter::from_byte(*first)?)),
            [first, second] => Some(OpWord::Two(
                Letter::from_byte(*first)?,
                Letter::from_byte(*second)?,
            )),
            [first, second, third] => Some(OpWord::Three(
                Letter::from_byte(*first)?,
                Letter::from_byte(*second)?,
                Letter::from_byte(*third)?,
            )),
            _ => None,
        }
    }

    /// Returns the number of chambers that the word makes of each chamber: the product of those of
    /// its letters, at most 64.
    pub fn parts(&self) -> u32
        ensures product { result ≡ parts_of (letters_of self.now) }
        ensures few { result ≤ 64 }
    {
        match *self {
            OpWord::One(first) => first.parts(),
            OpWord::Two(first, second) => first.parts() * second.parts(),
            OpWord::Three(first, second, third) => first.parts() * second.parts() * third.parts(),
        }
    }
}
