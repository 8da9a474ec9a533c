ghost use Rattle.std.specs.Prelude.{◌≤◌, ℕ, List};
ghost use Rattle.dd_model.specs.Symbol.{Symbol, IsTable, IsSymbol};
ghost use Rattle.dd_model.specs.Connected.{Connected as AllReached};
ghost use Rattle.dd_model.specs.Flat.{Flat};
ghost use Rattle.dd_model.specs.Isomorphic.{IsMorphism};
ghost use Rattle.dd_cells.specs.Fraction.{Divides};
ghost use Rattle.dd_covers.specs.Torus.{IsTorus};
ghost use Rattle.dd_covers.specs.TorusCover.{IsTorusCover};
ghost use Rattle.dd_crystal.specs.SheetCounts.{HasSheets, HasSheetNumber, IsTorusSheets};

/// A morphism to a connected symbol leads onto it, and equally many chambers lie above each
/// chamber.
pub fn morphisms_have_sheets()
    ensures { (s t : Symbol) (below : List ℕ) → IsTable s → AllReached s → IsTable t
        → IsMorphism t s below → HasSheetNumber s t below }
{}

/// No torus has a morphism onto a symbol with fewer sheets than the torus cover of the symbol. The
/// number of sheets of each such torus is a multiple of the number of the torus cover, which is the
/// greatest branching value, times 2 unless the symbol is oriented.
///
/// A chamber above a cell of branching value v lies in a cell of value 1, so the number of sheets
/// is a multiple of v. A morphism from an oriented symbol onto one that is not oriented passes
/// through the oriented cover, which gives the factor 2.
pub fn torus_covers_have_the_fewest_sheets()
    ensures cover { (s t : Symbol) (below : List ℕ) (n : ℕ) → IsSymbol s → AllReached s → Flat s
        → IsTorusSheets s n → IsTorusCover s t below → HasSheets s t below n }
    ensures multiple { (s t : Symbol) (below : List ℕ) (n m : ℕ) → IsSymbol s → AllReached s
        → IsTorusSheets s n → IsTorus t → IsMorphism t s below → HasSheets s t below m
        → Divides n m }
    ensures fewest { (s t u : Symbol) (below lower : List ℕ) (n m : ℕ) → IsSymbol s → AllReached s
        → Flat s → IsTorusCover s t below → HasSheets s t below n
        → IsTorus u → IsMorphism u s lower → HasSheets s u lower m → n ≤ m }
{}
