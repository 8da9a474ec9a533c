ghost use Rattle.std.specs.Prelude.{◌≡◌, ℕ, ◌+◌, ◌<◌, ◌^◌, List, ◌++◌, length};
ghost use Rattle.std.specs.List.{AllByRecursion};
ghost use Rattle.dd_model.specs.Symbol.{Symbol, IsSymbol};
ghost use Rattle.dd_model.specs.Isomorphic.{Isomorphic};
ghost use Rattle.dd_model.specs.Code.{Least};
ghost use Rattle.dd_model.specs.Small.{IsSmallSymbol};
ghost use Rattle.dd_model.specs.Line.{IsLine};
ghost use Rattle.dd_model.specs.Lists.{IsWithout};
ghost use Rattle.dd_model.specs.Wanted.{IsCatalogue};
ghost use Rattle.dd_model.specs.Position.{IsBefore};
ghost use Rattle.dd_model.specs.Text.{AreLines, IsText, beginning};
ghost use Rattle.dd_model.specs.declared.jobs.Position.{Position};
ghost use Rattle.dd_model.specs.declared.requests.Request.{Request};

/// At most one of the symbols that are isomorphic to one another is least.
pub fn isomorphic_least_symbols_are_equal()
    ensures { (s t : Symbol) → IsSymbol s → IsSymbol t → Least s → Least t → Isomorphic s t
        → s ≡ t }
{}

/// A request has at most one catalogue.
pub fn a_request_has_one_catalogue()
    ensures { (q : Request) (ss ts : List Symbol) → IsCatalogue q ss → IsCatalogue q ts → ss ≡ ts }
{}

/// A line determines its number, below ten to the 64th, and its symbol.
pub fn a_line_determines_its_symbol()
    ensures { (k l : ℕ) (s t : Symbol) (bytes : List ℕ) → k < 10 ^ 64 → l < 10 ^ 64
        → IsSmallSymbol s → IsSmallSymbol t → IsLine k s bytes → IsLine l t bytes
        → (k ≡ l) × (s ≡ t) }
{}

/// Numbered lines determine the list of their symbols.
pub fn lines_determine_their_symbols()
    ensures { (k : ℕ) (ss ts : List Symbol) (bytes : List ℕ) → k + length ss < 10 ^ 64
        → k + length ts < 10 ^ 64 → AllByRecursion IsSmallSymbol ss
        → AllByRecursion IsSmallSymbol ts → AreLines k ss bytes → AreLines k ts bytes → ss ≡ ts }
{}

/// A request has at most one text from a position on.
pub fn a_position_has_one_text()
    ensures { (q : Request) (at : Position) (count : ℕ) (a b : List ℕ) → IsText q at count a
        → IsText q at count b → a ≡ b }
{}

/// Nothing is before the beginning.
pub fn nothing_is_before_the_beginning()
    ensures symbol { (s : Symbol) → IsSymbol s → ¬ IsBefore beginning s }
    ensures list { (ss : List Symbol) → AllByRecursion IsSymbol ss
        → IsWithout (IsBefore beginning) ss ss }
{}

/// The lines of a joined list are the lines of the first list and then those of the second.
pub fn lines_of_a_joined_list()
    ensures joined { (k : ℕ) (ss ts : List Symbol) (a b : List ℕ) → AreLines k ss a
        → AreLines (k + length ss) ts b → AreLines k (ss ++ ts) (a ++ b) }
    ensures parted { (k : ℕ) (ss ts : List Symbol) (bytes : List ℕ) → AreLines k (ss ++ ts) bytes
        → (a : List ℕ) × (b : List ℕ) × AreLines k ss a × AreLines (k + length ss) ts b
        × (bytes ≡ a ++ b) }
{}
