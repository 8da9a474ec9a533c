ghost use Rattle.std.specs.Prelude.{◌≡◌, ℕ, ◌↔◌};
ghost use Rattle.dd_model.specs.Allowed.{IsIn, IsFrom};
ghost use Rattle.dd_model.specs.Request.{IsValid};
ghost use Rattle.dd_model.specs.Symbol.{Symbol};
ghost use Rattle.dd_model.specs.Wanted.{Wanted, WantedOfAnyDegrees, HasDegreesFrom};
ghost use Rattle.dd_model.specs.declared.allowed.Allowed.{Allowed};
ghost use Rattle.dd_model.specs.declared.requests.Request.{Request};

/// Two sets are equal if they have the same numbers.
pub fn sets_with_the_same_numbers_are_equal()
    ensures { (a b : Allowed) → ((m : ℕ) → IsIn a m ↔ IsIn b m) → a ≡ b }
{}

/// No degree of a symbol that meets the other conditions of a request is over 216. So let the sets
/// be the numbers f to 216 and g to 216. The wanted symbols are then exactly those that meet the
/// other conditions and have all m01 at least f and all m12 at least g.
pub fn sets_from_a_number_ask_for_all_degrees_of_at_least_it()
    ensures { (q : Request) (s : Symbol) (f g : ℕ) → IsValid q → IsFrom f q.faces
        → IsFrom g q.degrees
        → Wanted q s ↔ (WantedOfAnyDegrees q s × HasDegreesFrom f g s) }
{}
