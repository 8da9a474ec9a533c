ghost use Rattle.std.specs.Prelude.{◌≡◌, ℕ, List};
ghost use Rattle.dd_model.specs.Symbol.{Symbol, IsTable};
ghost use Rattle.dd_model.specs.Reading.{Reads};
ghost use Rattle.dd_quotient.specs.Dual.{dual_of};
ghost use Rattle.dd_template.specs.Made.{made};
ghost use Rattle.dd_template.specs.Named.{dual};
ghost use Rattle.dd_suite_commands.specs.declared.commands.FileCommand.{FileCommand};
ghost use Rattle.dd_suite_commands.specs.declared.commands.FileCommand.TheVariants.{Symbols};
ghost use Rattle.dd_suite_commands.specs.declared.commands.SymbolCommand.TheVariants.{Canon};
ghost use Rattle.dd_suite_commands.specs.declared.refusals.SymbolRefusal.{SymbolRefusal};
ghost use Rattle.dd_suite_commands.specs.Files.{IsFileText, IsRefused};
ghost use Rattle.dd_suite_commands.specs.InTurn.{AreIsomorphicInTurn};
ghost use Rattle.dd_suite_commands.specs.Merges.{IsMergedText, IsMergeRefusal};
ghost use Rattle.dd_suite_commands.specs.declared.merge_refusal.MergeRefusal.{MergeRefusal};

/// A file has at most one text for a command.
pub fn written_once()
    ensures { (command : FileCommand) (a x y : List ℕ) → IsFileText command a x
        → IsFileText command a y → x ≡ y }
{}

/// A file with a symbol of which a command makes nothing has no text for the command.
pub fn a_refused_file_has_no_text()
    ensures { (command : FileCommand) (bytes text : List ℕ) (r : SymbolRefusal)
        → IsRefused command bytes r → IsFileText command bytes text → ⊥ }
{}

/// Files have at most one merged text.
pub fn merged_once()
    ensures { (files : List (List ℕ)) (x y : List ℕ) → IsMergedText files x → IsMergedText files y
        → x ≡ y }
{}

/// Files that are refused by a merge have no merged text.
pub fn refused_files_have_no_merged_text()
    ensures { (files : List (List ℕ)) (text : List ℕ) (r : MergeRefusal) → IsMergeRefusal files r
        → IsMergedText files text → ⊥ }
{}

/// Canon writes the same of two files exactly where they spell lists of one length with isomorphic
/// symbols at each place.
pub fn canon_tells_classes_apart()
    ensures equal { (a b x y : List ℕ) (ss ts : List Symbol) → Reads a ss → Reads b ts
        → IsFileText (Symbols Canon) a x → IsFileText (Symbols Canon) b y
        → AreIsomorphicInTurn ss ts → x ≡ y }
    ensures apart { (a b x y : List ℕ) (ss ts : List Symbol) → Reads a ss → Reads b ts
        → IsFileText (Symbols Canon) a x → IsFileText (Symbols Canon) b y → x ≡ y
        → AreIsomorphicInTurn ss ts }
{}

/// The table of duals makes what the command `dual` takes for the dual.
pub fn the_dual_is_made_by_its_table()
    ensures { (s : Symbol) → IsTable s → made dual s ≡ dual_of s }
{}
