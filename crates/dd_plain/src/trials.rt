ghost use Rattle.std.specs.Prelude.{◌≡◌, ◌≤◌, ◌↔◌, IfOk, IfSome, IsSome, IsTrue};
ghost use Rattle.dd_symbol.specs.Building.{IsAccepted};
ghost use Rattle.dd_plain.specs.Trials.{tried};

use crate::choices::list_of;
use dd_model::Memory;
use dd_symbol::{Connected, Refusal, build};
use std::alloc::Global;

/// The chambers of a symbol of three chambers.
pub(crate) const CHAMBERS: [u32; 3] = [1, 2, 3];

/// The degrees that a branching value 1, 2, 3, 4 or 6 and one, two or three turns can give.
pub(crate) const DEGREES: [u32; 9] = [1, 2, 3, 4, 6, 8, 9, 12, 18];

/// The number of the list of degrees whose items are all 6: each digit is the place of 6 in
/// `DEGREES`.
pub(crate) const SIXES: u64 = 364;

/// Five lists of one size: the numbers of three lists of chambers and of two lists of degrees.
#[derive(Clone, Copy)]
pub(crate) struct Trial {
    /// How many chambers there are, from 1 to 3.
    pub size: u32,
    pub s0: u64,
    pub s1: u64,
    pub s2: u64,
    pub m01: u64,
    pub m12: u64,
}

/// The symbol with the five lists of a trial, if they are those of a connected symbol of at most
/// three chambers.
pub(crate) fn symbol_of(alloc: Global, trial: Trial) -> Result<Option<Connected>, Memory>
    ensures symbol { IfOk result (λ found. IfSome found (λ symbol. symbol ≡ tried trial)) }
    ensures some { IfOk result (λ found. IsSome found ↔ IsAccepted 3 (tried trial)) }
{
    let size = trial.size;
    let s0 = list_of(alloc, &CHAMBERS, size, trial.s0)?;
    let s1 = list_of(alloc, &CHAMBERS, size, trial.s1)?;
    let s2 = list_of(alloc, &CHAMBERS, size, trial.s2)?;
    let m01 = list_of(alloc, &DEGREES, size, trial.m01)?;
    let m12 = list_of(alloc, &DEGREES, size, trial.m12)?;
    match build(alloc, [s0, s1, s2], m01, m12, 3) {
        Ok(symbol) => Ok(Some(symbol)),
        Err(Refusal::Memory) => Err(Memory),
        Err(_) => Ok(None),
    }
}

/// Returns whether the five lists of a trial are those of a connected symbol of at most three
/// chambers.
pub(crate) fn is_accepted(alloc: Global, trial: Trial) -> Result<bool, Memory>
    ensures { IfOk result (λ yes. IsTrue yes ↔ IsAccepted 3 (tried trial)) }
{
    Ok(symbol_of(alloc, trial)?.is_some())
}
