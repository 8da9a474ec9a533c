ghost use Rattle.std.specs.Prelude.{◌≡◌, ℕ, List, ◌∷◌, []};
ghost use Rattle.dd_model.specs.Isomorphic.{Isomorphic};
ghost use Rattle.dd_model.specs.Symbol.{Symbol, IsTable};
ghost use Rattle.dd_template.specs.Lawful.{IsLawful};
ghost use Rattle.dd_template.specs.Made.{made};
ghost use Rattle.dd_template.specs.Table.{Table};
ghost use Rattle.dd_opword.specs.Composed.{composed};
ghost use Rattle.dd_opword.specs.Meaning.{meaning};
ghost use Rattle.dd_opword.specs.Together.{GoTogether};
ghost use Rattle.dd_opword.specs.Words.{IsSpelled};
ghost use Rattle.dd_opword.specs.declared.letters.Letter.TheVariants.{Ambo, Dual};
ghost use Rattle.dd_opword.specs.declared.words.OpWord.{OpWord};

/// Two lawful tables, composed, are a lawful table, which makes what the two make one after the
/// other, with the same numbers of chambers.
pub fn tables_compose()
    ensures lawful { (outer inner : Table) → GoTogether outer inner
        → IsLawful (composed outer inner) }
    ensures made { (outer inner : Table) (s : Symbol) → GoTogether outer inner → IsTable s
        → made (composed outer inner) s ≡ made outer (made inner s) }
{}

/// The ambo of the dual is isomorphic to the ambo.
pub fn duals_have_the_same_ambo()
    ensures { (s : Symbol) → IsTable s
        → Isomorphic (meaning (Ambo ∷ Dual ∷ []) s) (meaning (Ambo ∷ []) s) }
{}

/// A text spells one word of operations at most.
pub fn texts_spell_one_word()
    ensures { (text : List ℕ) (w v : OpWord) → IsSpelled text w → IsSpelled text v → w ≡ v }
{}
