ghost use Rattle.std.specs.Prelude.{◌≡◌, IfOk, map};
ghost use Rattle.std.specs.Rc.{rc_str_bytes};
ghost use Rattle.dd_suite_chains.specs.Words.{resume_words};

use dd_model::Memory;
use std::alloc::Global;
use std::rc::RcStr;

/// Returns the words that resume from the name.
pub(crate) fn words_to_go_on(alloc: Global, name: &str) -> Result<[RcStr; 2], Memory>
    ensures { IfOk result (λ words. map rc_str_bytes words ≡ resume_words name.now) }
{
    let first = RcStr::from_str(alloc, "resume")?;
    let second = RcStr::from_str(alloc, name)?;
    Ok([first, second])
}
