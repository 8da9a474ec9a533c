ghost use Rattle.std.specs.Prelude.{ℕ, List};
ghost use Rattle.dd_model.specs.Symbol.{Symbol, IsSymbol};
ghost use Rattle.dd_model.specs.Wanted.{IsCatalogue};
ghost use Rattle.dd_model.specs.Text.{IsText};
ghost use Rattle.dd_model.specs.declared.jobs.Position.{Position};
ghost use Rattle.dd_model.specs.declared.requests.Request.{Request};
ghost use Rattle.dd_quotient.specs.MinimalImage.{IsMinimalImage, IsInOrder};

/// Each request has a catalogue.
pub fn a_request_has_a_catalogue()
    ensures { (q : Request) → (ss : List Symbol) × IsCatalogue q ss }
{}

/// Each request has a text from each position on, whatever the number after which its lines begin.
pub fn a_position_has_a_text()
    ensures { (q : Request) (at : Position) (count : ℕ)
        → (bytes : List ℕ) × IsText q at count bytes }
{}

/// Each symbol has a minimal image that is numbered in the order in which its chambers meet it.
pub fn a_symbol_has_a_minimal_image()
    ensures { (s : Symbol) → IsSymbol s
        → (m : Symbol) × (f : List ℕ) × IsMinimalImage s m f × IsInOrder s f }
{}
