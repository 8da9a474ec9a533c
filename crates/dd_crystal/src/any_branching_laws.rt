ghost use Rattle.std.specs.Prelude.{◌↔◌, List};
ghost use Rattle.dd_model.specs.Symbol.{Symbol};
ghost use Rattle.dd_model.specs.Wanted.{Wanted, IsCatalogue};
ghost use Rattle.dd_model.specs.declared.requests.Request.{Request};
ghost use Rattle.dd_crystal.specs.AnyBranching.{WantedOfAnyBranching, IsCatalogueOfAnyBranching};

/// The two sentences on branching values in the definition of a wanted symbol leave nothing out.
/// Without them a request has the same wanted symbols, and so the same catalogue.
pub fn the_branching_clauses_leave_nothing_out()
    ensures wanted { (q : Request) (s : Symbol) → WantedOfAnyBranching q s ↔ Wanted q s }
    ensures catalogue { (q : Request) (ss : List Symbol) → IsCatalogueOfAnyBranching q ss
        ↔ IsCatalogue q ss }
{}
