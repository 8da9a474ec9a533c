ghost use Rattle.std.specs.Prelude.{◌≡◌, ℕ, ◌+◌, ◌<◌, ◌≤◌, List, [], ◌∷◌, codes, length};
ghost use Rattle.dd_model.specs.Symbol.{Symbol};
ghost use Rattle.dd_model.specs.Reading.{IsReadable, Reads, most_bytes};
ghost use Rattle.dd_model.specs.Line.{IsLine};
ghost use Rattle.dd_model.specs.Text.{AreLines};
ghost use Rattle.std.specs.List.{AllByRecursion};

/// A file spells at most one list of symbols.
pub fn a_file_spells_one_list()
    ensures { (bytes : List ℕ) (ss ts : List Symbol) → Reads bytes ss → Reads bytes ts → ss ≡ ts }
{}

/// A file of comments spells the empty list.
pub fn comments_spell_nothing()
    ensures { Reads (codes "# a\n# b\n") [] }
{}

/// Blanks and comments stand where they may, and the dimension 2 may stand after the size.
pub fn a_file_of_one_symbol()
    ensures { Reads (codes "# one chamber\n<1 2:1,\n 1,1:3,6>  # triangular\n")
        (record { size = 1; s0 = 1 ∷ []; s1 = 1 ∷ []; s2 = 1 ∷ []; m01 = 3 ∷ []; m12 = 6 ∷ [] }
        ∷ []) }
{}

/// What is written reads back to the symbols, where the numbers of the lines have at most 9 digits.
pub fn lines_read_back()
    ensures line { (k : ℕ) (symbol : Symbol) (line : List ℕ) → IsLine k symbol line
        → IsReadable symbol → k < 1000000000 → length line ≤ most_bytes → Reads line (symbol ∷ []) }
    ensures lines { (k : ℕ) (symbols : List Symbol) (bytes : List ℕ) → AreLines k symbols bytes
        → AllByRecursion IsReadable symbols → k + length symbols < 1000000000
        → length symbols ≤ 1000000 → length bytes ≤ most_bytes → Reads bytes symbols }
{}
