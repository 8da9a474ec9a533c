ghost use Rattle.std.specs.Prelude.{◌≢◌, ℕ, ◌≤◌, List, [], ◌∷◌, length};
ghost use Rattle.std.specs.declared.cmp.Ordering.TheVariants.{Less, Equal};
ghost use Rattle.std.specs.declared.cmp.Ordering.{Ordering};
ghost use Rattle.std.specs.Ordering.{nat_cmp, ordering_then};
ghost use Rattle.dd_model.specs.declared.index.Index.{Index};
ghost use Rattle.dd_model.specs.Symbol.{Symbol, IsSymbol, item, op};
ghost use Rattle.dd_model.specs.Code.{Least};
ghost use Rattle.dd_model.specs.FirstVisit.{rows, LeastTable};
ghost use Rattle.dd_model.specs.Partial.{Completes};
ghost use Rattle.dd_canon.specs.Traversal.{IsVisit, IsMeeting, IsPartialTraversal};

/// A traversal of a partial table begins at a chamber, and goes on where both its next image and
/// the table's own image at that place are known.
pub fn partial_tables_are_traversed()
    ensures begins { (partial : Symbol) (start : ℕ) (number : List ℕ)
        → IsVisit partial.size (start ∷ []) number
        → IsPartialTraversal partial (start ∷ []) number 1 (λ u. rows u 1 partial.size) Equal }
    ensures goes_on { (partial : Symbol) (order number order' number' : List ℕ) (c k : ℕ)
        (i : Index) (rest : Symbol → List ℕ) (o : Ordering) (x : ℕ) → 1 ≤ k → k ≤ length order → c ≤ k
        → IsPartialTraversal partial order number c (λ u. op u i k ∷ rest u) o
        → op partial i (item order k) ≢ 0 → op partial i k ≢ 0
        → IsVisit partial.size order' number'
        → IsMeeting order order' number' (op partial i (item order k)) x
        → IsPartialTraversal partial order' number' c rest
        (ordering_then o (nat_cmp x (op partial i k))) }
{}

/// A partial table that the traversal from some start beats has no least completion.
pub fn beaten_tables_have_no_least_completion()
    ensures table { (partial s : Symbol) (order number : List ℕ) (k : ℕ) (rest : Symbol → List ℕ)
        → IsPartialTraversal partial order number k rest Less → Completes partial s
        → ¬ LeastTable s }
    ensures symbol { (partial s : Symbol) (order number : List ℕ) (k : ℕ) (rest : Symbol → List ℕ)
        → IsPartialTraversal partial order number k rest Less → Completes partial s
        → IsSymbol s → ¬ Least s }
{}
