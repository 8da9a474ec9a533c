ghost use Rattle.std.specs.Prelude.{◌≡◌, ◌≢◌, ℕ, List};
ghost use Rattle.dd_model.specs.Symbol.{Symbol};
ghost use Rattle.dd_model.specs.Reading.{Reads};
ghost use Rattle.dd_text.specs.FileFaults.{IsFileFault};
ghost use Rattle.dd_text.specs.declared.faults.FileFault.{FileFault};
ghost use Rattle.dd_text.specs.declared.faults.Why.TheVariants as whys;

/// A file with a fault spells no list of symbols.
pub fn a_faulty_file_spells_nothing()
    ensures { (bytes : List ℕ) (fault : FileFault) (symbols : List Symbol) → IsFileFault bytes fault
        → fault.why ≢ whys.Memory → Reads bytes symbols → ⊥ }
{}

/// A file has at most one fault, beside a lack of memory.
pub fn a_file_has_one_fault()
    ensures { (bytes : List ℕ) (one other : FileFault) → IsFileFault bytes one
        → IsFileFault bytes other → one.why ≢ whys.Memory → other.why ≢ whys.Memory → one ≡ other }
{}
