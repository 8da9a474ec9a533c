ghost use Rattle.std.specs.Prelude.{◌≡◌, ◌+◌, ◌*◌, ◌≤◌, ℕ, List, [], ◌++◌};
ghost use Rattle.std.specs.List.{sum_by};
ghost use Rattle.dd_model.specs.Symbol.{Symbol, IsSymbol, IsChamber, degree};
ghost use Rattle.dd_model.specs.Code.{chambers};
ghost use Rattle.dd_model.specs.Flat.{Flat};
ghost use Rattle.dd_model.specs.declared.pair.Pair.TheVariants.{Tile, Vertex};
ghost use Rattle.dd_model.specs.Symbol.{Symbol};
ghost use Rattle.dd_model.specs.Wanted.{IsCatalogue};
ghost use Rattle.dd_model.specs.declared.jobs.Job.{Job};
ghost use Rattle.dd_model.specs.declared.requests.Request.{Request};
ghost use Rattle.dd_front_jobs.specs.Opening.{IsOpening};
ghost use Rattle.dd_model.specs.Text.{beginning};
ghost use Rattle.dd_model.specs.Joined.{AreUnderInTurn, joined, AreFirstMembers};
ghost use Rattle.dd_front.specs.declared.event.Event.{Event};
ghost use Rattle.dd_front.specs.Machine.{Machine, IsOpened};
ghost use Rattle.dd_front.specs.Step.{IsRun};

/// Let each chamber of a flat symbol have two shares, one for its tile and one for its vertex. Each
/// share is at most a fixed number divided by the degree there. Then twice the sum of all shares is
/// at most this number times the number of chambers.
pub fn flat_symbols_have_small_shares()
    ensures { (s : Symbol) (whole : ℕ) (tiles vertices : ℕ → ℕ) → IsSymbol s → Flat s
        → ((d : ℕ) → IsChamber s d → tiles d * degree s Tile d ≤ whole)
        → ((d : ℕ) → IsChamber s d → vertices d * degree s Vertex d ≤ whole)
        → 2 * (sum_by tiles (chambers s) + sum_by vertices (chambers s)) ≤ s.size * whole }
{}

/// The lists of what is under the jobs of an opening, one after the other, are the catalogue.
pub fn lists_under_an_opening_are_the_catalogue()
    ensures { (q : Request) (jobs : List Job) (lists : List (List Symbol)) → IsOpening q jobs
        → AreUnderInTurn q jobs lists → IsCatalogue q (joined lists) }
{}

/// What a front emits from the opening of a request and from the beginning on are the first members
/// of the catalogue, in order, whatever happens to it: each catalogue begins with them.
pub fn a_front_emits_the_first_members()
    ensures first { (q : Request) (jobs : List Job) (k : ℕ) (f g : Machine) (es : List Event)
        (out : List Symbol) → IsOpening q jobs → IsOpened q jobs beginning k f
        → IsRun f [] es g out → AreFirstMembers q out }
    ensures prefix { (q : Request) (jobs : List Job) (k : ℕ) (f g : Machine) (es : List Event)
        (out all : List Symbol) → IsOpening q jobs → IsOpened q jobs beginning k f
        → IsRun f [] es g out → IsCatalogue q all → (rest : List Symbol) × (all ≡ out ++ rest) }
{}
