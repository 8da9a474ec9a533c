ghost use Rattle.std.specs.Prelude.{◌≡◌, ◌≤◌, ℕ, List, length};
ghost use Rattle.dd_model.specs.Symbol.{Symbol, IsSymbol};
ghost use Rattle.dd_suite_commands.specs.Info.{IsGroup};
ghost use Rattle.dd_suite_exercise.specs.Exercise.{IsExerciseText};
ghost use Rattle.dd_suite_exercise.specs.Items.{IsItem};
ghost use Rattle.dd_suite_exercise.specs.Seeds.{AreSeeds};

/// An exercise has at most one text.
pub fn an_exercise_has_one_text()
    ensures { (start count : ℕ) (a b : List ℕ) → IsExerciseText start count a
        → IsExerciseText start count b → a ≡ b }
{}

/// Each exercise has a text, whatever its start number and its count.
pub fn each_exercise_has_a_text()
    ensures { (start count : ℕ) → (text : List ℕ) × IsExerciseText start count text }
{}

/// There is a list of seeds, and it has 18 members.
pub fn there_are_18_seeds()
    ensures exists { (seeds : List Symbol) × AreSeeds seeds }
    ensures number { (seeds : List Symbol) → AreSeeds seeds → length seeds ≡ 18 }
{}

/// Each symbol has an orbifold, and exactly one name of its group.
pub fn a_symbol_has_one_group_name()
    ensures exists { (s : Symbol) → IsSymbol s → (name : List ℕ) × IsGroup s name }
    ensures one { (s : Symbol) (a b : List ℕ) → IsSymbol s → IsGroup s a → IsGroup s b → a ≡ b }
{}

/// An item of an exercise has at most 384 chambers: a seed has at most 2, two changes make at most
/// 32 of them, and a torus cover has at most 12 sheets.
pub fn items_have_at_most_384_chambers()
    ensures { (seeds : List Symbol) (z : ℕ) (form : Symbol) → AreSeeds seeds
        → IsItem seeds z form → form.size ≤ 384 }
{}
