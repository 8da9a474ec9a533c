ghost use Rattle.std.specs.Prelude.{codes};
ghost use Rattle.dd_model.specs.Symbol.{IsSymbol};
ghost use Rattle.dd_model.specs.Connected.{Connected};
ghost use Rattle.dd_model.specs.Isomorphic.{Isomorphic};
ghost use Rattle.dd_model.specs.Code.{Least};
ghost use Rattle.dd_model.specs.Flat.{Flat};
ghost use Rattle.dd_model.specs.Minimal.{Minimal};
ghost use Rattle.dd_model.specs.Line.{IsLine};
ghost use Rattle.dd_model.specs.Worked.{squares, truncated_squares, truncated_squares_backwards, single_chambers, AsksForOneChamber};
ghost use Rattle.dd_model.specs.Wanted.{IsCatalogue};
ghost use Rattle.dd_model.specs.Text.{IsText, beginning};
ghost use Rattle.dd_model.specs.declared.requests.Request.{Request};

/// The tiling by squares has a symbol of one chamber.
pub fn squares_have_a_symbol()
    ensures symbol { IsSymbol squares }
    ensures connected { Connected squares }
    ensures flat { Flat squares }
    ensures minimal { Minimal squares }
    ensures least { Least squares }
    ensures line { IsLine 1 squares (codes "<1.1:1:1,1,1:4,4>\n") }
{}

/// The tiling by squares and octagons has a symbol of three chambers.
pub fn truncated_squares_have_a_symbol()
    ensures symbol { IsSymbol truncated_squares }
    ensures connected { Connected truncated_squares }
    ensures flat { Flat truncated_squares }
    ensures minimal { Minimal truncated_squares }
    ensures least { Least truncated_squares }
    ensures line { IsLine 1 truncated_squares (codes "<1.1:3:1 2 3,1 3,2 3:4 8,3>\n") }
{}

/// Numbered backwards it is an isomorphic symbol that is not least.
pub fn truncated_squares_backwards_are_not_least()
    ensures symbol { IsSymbol truncated_squares_backwards }
    ensures connected { Connected truncated_squares_backwards }
    ensures flat { Flat truncated_squares_backwards }
    ensures isomorphic { Isomorphic truncated_squares_backwards truncated_squares }
    ensures not_least { ¬ Least truncated_squares_backwards }
{}

/// Three symbols have one chamber, and all three are minimal.
pub fn single_chambers_are_three()
    ensures catalogue { (q : Request) → AsksForOneChamber q → IsCatalogue q single_chambers }
    ensures text { (q : Request) → AsksForOneChamber q
        → IsText q beginning 0
        (codes "<1.1:1:1,1,1:3,6>\n<1.2:1:1,1,1:4,4>\n<1.3:1:1,1,1:6,3>\n") }
{}
