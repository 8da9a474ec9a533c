ghost use Rattle.std.specs.Prelude.{◌≡◌, ℕ, ◌≤◌, List};
ghost use Rattle.dd_model.specs.Symbol.{Symbol, IsTable, IsSymbol, IsChamber};
ghost use Rattle.dd_model.specs.Cell.{InCell, IsPeriod, IsLeastTurns, IsLeastOfCell, AreCells, IsBranching};
ghost use Rattle.dd_model.specs.declared.pair.Pair.{Pair};

/// To lie in one cell is an equivalence of chambers.
pub fn cells_are_classes()
    ensures reflexive { (s : Symbol) (p : Pair) (d : ℕ) → InCell s p d d }
    ensures symmetric { (s : Symbol) (p : Pair) (d e : ℕ) → IsTable s → IsChamber s d
        → InCell s p d e → InCell s p e d }
    ensures transitive { (s : Symbol) (p : Pair) (c d e : ℕ) → InCell s p c d → InCell s p d e
        → InCell s p c e }
    ensures within { (s : Symbol) (p : Pair) (d e : ℕ) → IsTable s → IsChamber s d → InCell s p d e
        → IsChamber s e }
{}

/// Each cell has one least chamber.
pub fn each_cell_has_one_least_chamber()
    ensures exists { (s : Symbol) (p : Pair) (d : ℕ) → IsTable s → IsChamber s d
        → (e : ℕ) × InCell s p d e × IsLeastOfCell s p e }
    ensures unique { (s : Symbol) (p : Pair) (d e : ℕ) → IsTable s → IsLeastOfCell s p d
        → IsLeastOfCell s p e → InCell s p d e → d ≡ e }
{}

/// Each pair has one list of cells.
pub fn each_pair_has_one_list_of_cells()
    ensures exists { (s : Symbol) (p : Pair) → IsTable s → (ds : List ℕ) × AreCells s p ds }
    ensures unique { (s : Symbol) (p : Pair) (ds es : List ℕ) → AreCells s p ds → AreCells s p es
        → ds ≡ es }
{}

/// Each cell has one least number of turns, which is the period of each of its chambers and at
/// most the number of all chambers.
pub fn each_cell_has_one_period()
    ensures exists { (s : Symbol) (p : Pair) (d : ℕ) → IsTable s → IsChamber s d
        → (r : ℕ) × IsPeriod s p d r }
    ensures bound { (s : Symbol) (p : Pair) (d r : ℕ) → IsTable s → IsChamber s d
        → IsPeriod s p d r → r ≤ s.size }
    ensures whole_cell { (s : Symbol) (p : Pair) (d r : ℕ) → IsTable s → IsChamber s d
        → IsPeriod s p d r → IsLeastTurns s p d r }
    ensures unique { (s : Symbol) (p : Pair) (d q r : ℕ) → IsLeastTurns s p d q
        → IsLeastTurns s p d r → q ≡ r }
{}

/// Each cell has one branching value.
pub fn each_cell_has_one_branching_value()
    ensures exists { (s : Symbol) (p : Pair) (d : ℕ) → IsSymbol s → IsChamber s d
        → (v : ℕ) × IsBranching s p d v }
    ensures unique { (s : Symbol) (p : Pair) (d v w : ℕ) → IsBranching s p d v
        → IsBranching s p d w → v ≡ w }
    ensures same { (s : Symbol) (p : Pair) (d e v : ℕ) → IsSymbol s → IsChamber s d
        → InCell s p d e → IsBranching s p d v → IsBranching s p e v }
{}
