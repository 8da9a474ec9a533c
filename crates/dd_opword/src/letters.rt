ghost use Rattle.std.specs.Prelude.{◌≡◌, MatchOption};
ghost use Rattle.dd_opword.specs.Words.{byte_of};
ghost use Rattle.dd_opword.specs.Meaning.{table_of_letter};
ghost use Rattle.dd_opword.specs.declared.letters.Letter.{Letter as Sign};

/// An operation on tilings, by its letter.
#[derive(Debug, Clone, Copy, PartialEq, Eq)]
pub enum Letter {
    /// `d`: tiles and vertices are exchanged.
    Dual,
    /// `a`: a vertex on each edge.
    Ambo,
    /// `t`: each vertex is cut off.
    Truncate,
    /// `c`: each edge is made a hexagon.
    Chamfer,
}

impl Letter {
    /// Returns the operation of a letter, or None if the byte is no letter of an operation.
    pub(crate) fn from_byte(byte: u8) -> Option<Letter>
        ensures { MatchOption result ((l : Sign) → byte ≡ byte_of l → ⊥) (λ l. byte ≡ byte_of l) }
    {
        match byte {
            b'd' => Some(Letter::Dual),
            b'a' => Some(Letter::Ambo),
            b't' => Some(Letter::Truncate),
            b'c' => Some(Letter::Chamfer),
            _ => None,
        }
    }

    /// Returns the number of chambers that the operation makes of each chamber.
    pub fn parts(self) -> u32
        ensures { result ≡ (table_of_letter self).parts }
    {
        match self {
            Letter::Dual => 1,
            Letter::Ambo => 2,
            Letter::Truncate => 3,
            Letter::Chamfer => 4,
        }
    }
}
