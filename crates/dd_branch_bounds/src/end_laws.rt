ghost use Rattle.std.specs.Prelude.{◌≡◌, ◌≢◌, ◌⊎◌, ◌+◌, ◌*◌, ◌/◌, ◌≤◌, ℕ, Bool, IsTrue};
ghost use Rattle.dd_model.specs.Symbol.{Symbol, degree};
ghost use Rattle.dd_model.specs.Partial.{Completes};
ghost use Rattle.dd_model.specs.Wanted.{Wanted};
ghost use Rattle.dd_model.specs.declared.pair.Pair.{Pair};
ghost use Rattle.dd_model.specs.declared.pair.Pair.TheVariants.{Tile, Vertex};
ghost use Rattle.dd_model.specs.declared.requests.Request.{Request};
ghost use Rattle.dd_branch_bounds.specs.Shares.{IsTotal};
ghost use Rattle.dd_branch_bounds.specs.Units.{share_unit};
ghost use Rattle.dd_branch_bounds.specs.Changes.{IsShareFrom, IsLink, HasTurns, AreJoined};
ghost use Rattle.dd_branch_bounds.specs.Changes.{IsFixedEnd, AreFixed, AreClosed, IsAlone};
ghost use Rattle.dd_branch_bounds.specs.Passing.{Passes, AreEndsOf};
ghost use Rattle.dd_branch_bounds.specs.PathEnd.{PathEnd, weight};

/// Let an involution join two paths in all of some tables. Then their chambers have one share from
/// then on. It is right for each allowed degree from half of their number on. If an involution
/// fixes one of them, or if they are all chambers and their number is odd, it is right from their
/// whole number on. The total loses what the chambers had, and gains what they have.
pub fn joined_paths_have_one_share()
    ensures { (q : Request) (P : Symbol) (test : Symbol → Bool) (p : Pair)
        → (old new : ℕ → PathEnd) (total more x y k v : ℕ) → AreEndsOf q P test p old total
        → IsLink (Passes P test) p old x y → HasTurns P.size old x y k → IsShareFrom q p k v
        → AreJoined old new x y v
        → more + (weight (old x) + weight (old y))
        ≡ total + ((old x).chambers + (old y).chambers) * v
        → AreEndsOf q P test p new more }
{}

/// Let an involution fix the end of a path in all of some tables. Then its chambers have a share
/// that is right for each allowed degree from their number on, and only the other end is left.
pub fn a_path_with_a_fixed_end_has_the_share_of_a_chain()
    ensures { (q : Request) (P : Symbol) (test : Symbol → Bool) (p : Pair)
        → (old new : ℕ → PathEnd) (total more x k v : ℕ) → AreEndsOf q P test p old total
        → IsFixedEnd (Passes P test) p old x → k ≤ (old x).chambers → IsShareFrom q p k v
        → AreFixed old new x v → more + weight (old x) ≡ total + (old x).chambers * v
        → AreEndsOf q P test p new more }
{}

/// If a path has no ends any more, its chambers have any share that is right for one of them, such
/// as the share of the degree of the whole cell.
pub fn a_closed_path_has_the_share_of_its_cell()
    ensures { (q : Request) (P : Symbol) (test : Symbol → Bool) (p : Pair)
        → (old new : ℕ → PathEnd) (total more x v : ℕ) → AreEndsOf q P test p old total
        → 1 ≤ (old x).chambers → v ≤ share_unit
        → ((s : Symbol) → Wanted q s → Passes P test s → share_unit ≤ v * degree s p (x / 2))
        → AreClosed old new x → more + weight (old x) ≡ total + (old x).chambers * v
        → AreEndsOf q P test p new more }
{}

/// Each chamber of which nothing more is known is a path by itself. Its two flags are the ends, and
/// its share is right for each allowed degree.
pub fn each_chamber_is_a_path_alone()
    ensures { (q : Request) (P : Symbol) (test : Symbol → Bool) (p : Pair) (ends : ℕ → PathEnd)
        → (v : ℕ) → IsShareFrom q p 1 v
        → ((x : ℕ) → 1 ≤ (ends x).chambers → IsAlone P.size v ends x)
        → AreEndsOf q P test p ends (P.size * v) }
{}

/// Ends of paths in some tables are ends in fewer, as in those that have more known images or pass
/// a further test.
pub fn what_holds_of_some_tables_holds_of_fewer()
    ensures { (q : Request) (P Q : Symbol) (test other : Symbol → Bool) (p : Pair)
        → (ends : ℕ → PathEnd) (total : ℕ) → Q.size ≡ P.size
        → ((s : Symbol) → Passes Q other s → Passes P test s)
        → AreEndsOf q P test p ends total → AreEndsOf q Q other p ends total }
{}

/// The total of the ends bounds the sum of 1/m over all chambers, where all tables pass the test.
pub fn the_total_of_the_ends_bounds_the_shares()
    ensures { (q : Request) (P : Symbol) (test : Symbol → Bool) (p : Pair) (ends : ℕ → PathEnd)
        → (total : ℕ) → (p ≡ Tile) ⊎ (p ≡ Vertex)
        → ((s : Symbol) → Completes P s → IsTrue (test s))
        → AreEndsOf q P test p ends total → IsTotal q P p share_unit total }
{}

/// No path has more than the total, nor have two together; the total is no more than the unit for
/// each chamber.
pub fn no_path_has_more_than_the_total()
    ensures one { (q : Request) (P : Symbol) (test : Symbol → Bool) (p : Pair)
        → (ends : ℕ → PathEnd) (total x : ℕ) → AreEndsOf q P test p ends total
        → 1 ≤ (ends x).chambers → weight (ends x) ≤ total }
    ensures two { (q : Request) (P : Symbol) (test : Symbol → Bool) (p : Pair)
        → (ends : ℕ → PathEnd) (total x y : ℕ) → AreEndsOf q P test p ends total
        → 1 ≤ (ends x).chambers → 1 ≤ (ends y).chambers → y ≢ x → y ≢ (ends x).other
        → weight (ends x) + weight (ends y) ≤ total }
    ensures all { (q : Request) (P : Symbol) (test : Symbol → Bool) (p : Pair)
        → (ends : ℕ → PathEnd) (total : ℕ) → AreEndsOf q P test p ends total
        → total ≤ P.size * share_unit }
{}
