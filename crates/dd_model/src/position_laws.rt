ghost use Rattle.std.specs.Prelude.{◌⊎◌, ℕ, ◌<◌, List, length, get_or, take, drop};
ghost use Rattle.std.specs.List.{AllByRecursion};
ghost use Rattle.dd_model.specs.Symbol.{Symbol, IsTable};
ghost use Rattle.dd_model.specs.Code.{IsBelow};
ghost use Rattle.dd_model.specs.Lists.{IsWithout};
ghost use Rattle.dd_model.specs.Wanted.{IsAscending};
ghost use Rattle.dd_model.specs.Jobs.{IsMemberUnder};
ghost use Rattle.dd_model.specs.Joined.{IsPartBelow};
ghost use Rattle.dd_model.specs.Position.{IsBefore, IsWhollyBefore, IsWithin};
ghost use Rattle.dd_model.specs.declared.jobs.Job.{Job};
ghost use Rattle.dd_model.specs.declared.jobs.Position.{Position};
ghost use Rattle.dd_model.specs.declared.requests.Request.{Request};

/// What comes after a symbol that is not before a position is not before it either. So in an
/// ascending list what is before the position comes first.
pub fn not_being_before_a_position_is_closed_upward()
    ensures symbols { (at : Position) (s t : Symbol) → IsTable s → IsTable t → IsBelow s t
        → IsBefore at t → IsBefore at s }
    ensures list { (at : Position) (ss : List Symbol) (i : ℕ) (d : Symbol) → IsAscending ss
        → AllByRecursion IsTable ss → AllByRecursion (IsBefore at) (take i ss)
        → (i < length ss → ¬ IsBefore at (get_or ss i d)) → IsWithout (IsBefore at) ss (drop i ss) }
{}

/// What is under a job that is wholly before a position is before it, and where the position is not
/// within the job either, nothing under it is. Jobs before one that is wholly before a position, or
/// that has it within, are wholly before it.
pub fn a_position_parts_jobs()
    ensures before { (q : Request) (at : Position) (j : Job) (s : Symbol) → IsWhollyBefore at j
        → IsMemberUnder q j s → IsBefore at s }
    ensures after { (q : Request) (at : Position) (j : Job) (s : Symbol) → ¬ IsWhollyBefore at j
        → ¬ IsWithin j at → IsMemberUnder q j s → ¬ IsBefore at s }
    ensures earlier { (at : Position) (j k : Job) → IsPartBelow j k
        → IsWhollyBefore at k ⊎ IsWithin k at → IsWhollyBefore at j }
{}
