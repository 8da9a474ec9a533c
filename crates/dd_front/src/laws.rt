ghost use Rattle.std.specs.Prelude.{◌≡◌, ℕ, List, []};
ghost use Rattle.dd_model.specs.Symbol.{Symbol};
ghost use Rattle.dd_model.specs.declared.jobs.Job.{Job};
ghost use Rattle.dd_model.specs.declared.jobs.Position.{Position};
ghost use Rattle.dd_model.specs.declared.requests.Request.{Request};
ghost use Rattle.dd_front.specs.declared.entry.Entry.{Entry};
ghost use Rattle.dd_front.specs.declared.event.Event.{Event};
ghost use Rattle.dd_front.specs.Machine.{Machine, IsOpened, StandsAt};
ghost use Rattle.dd_front.specs.Step.{IsNext, IsRun, out_after};
ghost use Rattle.dd_front.specs.Covered.{IsCovered};
ghost use Rattle.dd_front.specs.Absorbed.{MayAbsorb, Absorbs};
ghost use Rattle.dd_front.specs.Held.{IsHeld};

/// A machine stands at one position.
pub fn a_machine_stands_at_one_position()
    ensures one { (from a b : Position) (es : List Entry) → StandsAt from es a → StandsAt from es b
        → a ≡ b }
    ensures some { (from : Position) (es : List Entry) → (a : Position) × StandsAt from es a }
{}

/// What is held at an opening.
pub fn a_machine_is_held_at_its_opening()
    ensures { (q : Request) (jobs : List Job) (at : Position) (k : ℕ) (f : Machine)
        → IsOpened q jobs at k f → IsHeld q jobs at f [] }
{}

/// Each event that is allowed keeps what is held.
pub fn an_event_keeps_what_is_held()
    ensures { (q : Request) (jobs : List Job) (at : Position) (f g : Machine)
        (out emitted : List Symbol) (e : Event) → IsHeld q jobs at f out → IsNext f e g emitted
        → IsHeld q jobs at g (out_after f e out emitted) }
{}

/// So does what a round brings back.
pub fn absorbing_keeps_what_is_held()
    ensures { (q : Request) (jobs : List Job) (at : Position) (f g : Machine) (out : List Symbol)
        (k : ℕ) (es : List Entry) → IsHeld q jobs at f out → MayAbsorb f k es → Absorbs f k es g
        → IsHeld q jobs at g out }
{}

/// What a machine has emitted and what its entries still have are together what its opening has,
/// where all this is held.
pub fn what_is_held_is_covered()
    ensures { (q : Request) (jobs : List Job) (at : Position) (f : Machine) (out : List Symbol)
        → IsHeld q jobs at f out → IsCovered q jobs at f out }
{}

/// After each run from an opening, what was emitted and what the entries still have are together
/// what the opening has.
pub fn a_run_covers_its_opening()
    ensures { (q : Request) (jobs : List Job) (at : Position) (k : ℕ) (f g : Machine)
        (es : List Event) (out : List Symbol) → IsOpened q jobs at k f → IsRun f [] es g out
        → IsCovered q jobs at g out }
{}
