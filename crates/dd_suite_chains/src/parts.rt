ghost use Rattle.std.specs.Prelude.{◌≡◌, ◌↔◌, ℕ, List, ◌++◌, None, Some, IfOk, IsTrue, MatchOption, take};
ghost use Rattle.dd_check.specs.declared.checkpoint.Checkpoint.{Checkpoint};
ghost use Rattle.dd_check.specs.ChainStarts.{Holds};
ghost use Rattle.dd_suite_chains.specs.Making.{IsPartOf, IsNextNumber};

use dd_check::{CheckFault, Checkpoint, read_checkpoint};
use dd_model::Memory;
use std::alloc::Global;

/// Returns the first `count` bytes of a text, or all if it has fewer.
fn first_bytes(text: &[u8], count: u128) -> &[u8]
    ensures { result.now ≡ take count text.now }
{
    match usize::try_from(count) {
        Ok(count) if count < text.len() => &text[..count],
        _ => text,
    }
}

/// The checkpoint of a text, where it is a checkpoint text.
fn check_of(alloc: Global, text: &[u8]) -> Result<Option<Checkpoint>, Memory>
    ensures { IfOk result (λ check. MatchOption check
        ((c : Checkpoint) → Holds None (Some text.now) c → ⊥) (Holds None (Some text.now))) }
{
    match read_checkpoint(alloc, text) {
        Ok(check) => Ok(Some(check)),
        Err(fault) => match fault {
            CheckFault::Memory => Err(Memory),
            _ => Ok(None),
        },
    }
}

/// Appends what a run gives that is not the last. This is as many bytes of its output as its
/// checkpoint says, if the text under the name has the run's number, and nothing otherwise. Returns
/// the number of the run that resumes from the text, if it is a checkpoint text.
pub(crate) fn add_part(
    alloc: Global,
    text: &[u8],
    number: Option<u64>,
    output: &[u8],
    joined: &mut Vec<u8>,
) -> Result<Option<u64>, Memory>
    ensures part { IfOk result (λ next. (part : List ℕ)
        × IsPartOf number (Some text.now) output.now part
        × (joined.new.items ≡ joined.old.items ++ part)) }
    ensures next { IfOk result (IsNextNumber (Some text.now)) }
{
    let Some(check) = check_of(alloc, text)? else {
        return Ok(None);
    };
    let run = u64::from(check.run);
    let part = match number {
        Some(number) if number == run => first_bytes(output, check.bytes),
        _ => &[],
    };
    joined.extend_from_slice(part)?;
    Ok(Some(run + 1))
}
