ghost use Rattle.std.specs.Prelude.{◌≡◌, ℕ, ◌+◌, ◌<◌, ◌≤◌, ◌↔◌, IsTrue, [], ◌∷◌};

use dd_model::Index;

/// The most letters of a word that the test of a table meets: two for each of 64 turns.
pub(crate) const MOST_LETTERS: usize = 128;

/// A reduced word, its first letter last.
#[derive(Drop)]
pub(crate) struct Letters {
    letters: [Index; MOST_LETTERS],
    count: usize,
}

impl Letters {
    ghost use Rattle.dd_model.specs.declared.index.Index.TheVariants.{Two};
    ghost use Rattle.dd_template.specs.Reduced.{strike, put, put_move};
    ghost use Rattle.dd_template.specs.Letters.{word_of};

    /// The word without letters.
    pub(crate) fn new() -> Self
        ensures word { word_of result ≡ [] }
        ensures count { result.count ≡ 0 }
    {
        Letters {
            letters: [Index::Zero; MOST_LETTERS],
            count: 0,
        }
    }

    /// Sets a letter before the word.
    fn push(&mut self, letter: Index)
        requires room { self.old.count < 128 }
        ensures word { word_of self.new ≡ letter ∷ word_of self.old }
        ensures count { self.new.count ≡ self.old.count + 1 }
    {
        self.letters[self.count] = letter;
        self.count += 1;
    }

    /// Sets a letter before the word, or strikes it with its equal.
    fn strike(&mut self, letter: Index)
        requires room { self.old.count < 128 }
        ensures word { word_of self.new ≡ strike letter (word_of self.old) }
        ensures count { self.new.count ≤ self.old.count + 1 }
    {
        if self.count > 0 && self.letters[self.count - 1] == letter {
            self.count -= 1;
        } else {
            self.push(letter);
        }
    }

    /// Sets 2 behind a 0 at the head of the word.
    fn put_two(&mut self)
        requires room { self.old.count < 128 }
        ensures word { word_of self.new ≡ put Two (word_of self.old) }
        ensures count { self.new.count ≤ self.old.count + 1 }
    {
        if self.count > 0 && self.letters[self.count - 1] == Index::Zero {
            self.count -= 1;
            self.strike(Index::Two);
            self.push(Index::Zero);
        } else {
            self.strike(Index::Two);
        }
    }

    /// Sets the letter of a move, if it has one, before the word and reduces.
    pub(crate) fn put_move(&mut self, by: Option<Index>)
        requires room { self.old.count < 128 }
        ensures word { word_of self.new ≡ put_move by (word_of self.old) }
        ensures count { self.new.count ≤ self.old.count + 1 }
    {
        match by {
            None => {}
            Some(Index::Zero) => self.strike(Index::Zero),
            Some(Index::One) => self.strike(Index::One),
            Some(Index::Two) => self.put_two(),
        }
    }

    /// Returns whether the word has no letters.
    pub(crate) fn is_empty(&self) -> bool
        ensures { IsTrue result ↔ (word_of self.now ≡ []) }
    {
        self.count == 0
    }

    /// Returns whether the word has these two letters.
    pub(crate) fn is_two(&self, a: Index, b: Index) -> bool
        ensures { IsTrue result ↔ (word_of self.now ≡ a ∷ b ∷ []) }
    {
        self.count == 2 && self.letters[1] == a && self.letters[0] == b
    }
}
