ghost use Rattle.std.specs.Prelude.{◌≡◌, IfOk, ◌≤◌, ◌↔◌, IfErr, IsTrue, OnOk, ◌^◌};
ghost use Rattle.dd_check.specs.Texts.{parts_of, texts};
ghost use Rattle.dd_check.specs.Faults.{IsEnd, IsLine, IsLongerFault, Tells};
ghost use Rattle.dd_check.specs.Lines.{HasWords, IsMissing, IsToldFault, IsToldInRange, IsToldSet, IsFaultHere, IsUnformed};
ghost use Rattle.dd_check.specs.Rows.{IsNumberRow, IsLimitsRow, IsOldLimitsRow, IsSetRow, IsPlaceRow};
ghost use Rattle.dd_check.specs.Ranges.{IsFromTo, AreLimits, AreOldLimits, IsInRange, IsInOldRange};
ghost use Rattle.dd_check.specs.Sets.{AreItems};
ghost use Rattle.dd_check.specs.Told.{position_of};

use crate::faults::CheckFault;
use crate::ranges::{
    are_limits, are_old_limits, is_from_to, is_in_old_range, is_in_range, position,
};
use crate::raw_values::{Limits, OldLimits, RawPosition};
use crate::rows::{limits_row, number_row, old_limits_row, place_row};
use crate::sets::{are_items, set_of, set_row};
use dd_model::{Allowed, Position};
use std::alloc::{AllocError, Global};

/// Returns the parts of a text that are between the places of a byte.
pub(crate) fn parts(alloc: Global, text: &[u8], separator: u8) -> Result<Vec<&[u8]>, AllocError>
    ensures { IfOk result (λ parts. texts parts.items ≡ parts_of separator text.now) }
{
    text.split(|byte| *byte == separator).collect(alloc)
}

/// Returns the words of a line. Lines are counted from 1, and end with a line feed.
pub(crate) fn words_at<'a>(
    alloc: Global,
    lines: &[&'a [u8]],
    line: u32,
) -> Result<Vec<&'a [u8]>, CheckFault>
    requires { 1 ≤ line }
    ensures words { IfOk result (λ words. HasWords (texts lines.now) line (texts words.items)) }
    ensures missing { IfErr result (IsToldFault (IsMissing (texts lines.now) line)) }
{
    let after = line as usize;
    if after >= lines.len() {
        return Err(CheckFault::Shape { line });
    }
    parts(alloc, lines[after - 1], b' ').map_err(CheckFault::from)
}

/// Returns `Err` if anything comes after the line feed of the line before this one.
pub(crate) fn end_at(lines: &[&[u8]], line: u32) -> Result<(), CheckFault>
    requires { 1 ≤ line }
    ensures end { OnOk result (IsEnd (texts lines.now) line) }
    ensures longer { IfErr result (IsLongerFault (texts lines.now) line) }
{
    let count = line as usize;
    if lines.len() == count && lines[count - 1].is_empty() {
        Ok(())
    } else {
        Err(CheckFault::Shape { line })
    }
}

/// Returns whether the first line is this one.
pub(crate) fn is_first(lines: &[&[u8]], line: &[u8]) -> bool
    ensures { IsTrue result ↔ IsLine (texts lines.now) 1 line.now }
{
    lines.len() > 1 && lines[0] == line
}

/// Returns the number of a line after a word. It is from `low` to `high`.
pub(crate) fn number_at(
    alloc: Global,
    lines: &[&[u8]],
    line: u32,
    key: &[u8],
    low: u64,
    high: u64,
) -> Result<u64, CheckFault>
    requires { 1 ≤ line }
    ensures told { IfOk result
        (IsToldInRange (texts lines.now) line (IsNumberRow key.now) (IsFromTo low high)) }
    ensures fault { IfErr result (IsToldFault
        (IsFaultHere (texts lines.now) line (IsNumberRow key.now) (IsFromTo low high))) }
{
    let words = words_at(alloc, lines, line)?;
    let Some(number) = number_row(&words, key) else {
        return Err(CheckFault::Shape { line });
    };
    if !is_from_to(low, high, number) {
        return Err(CheckFault::Range { line });
    }
    Ok(number)
}

/// Returns the limits of a request that a line has.
pub(crate) fn limits_at(alloc: Global, lines: &[&[u8]], line: u32) -> Result<Limits, CheckFault>
    requires { 1 ≤ line }
    ensures told { IfOk result (IsToldInRange (texts lines.now) line IsLimitsRow AreLimits) }
    ensures fault { IfErr result
        (IsToldFault (IsFaultHere (texts lines.now) line IsLimitsRow AreLimits)) }
{
    let words = words_at(alloc, lines, line)?;
    let Some(limits) = limits_row(&words) else {
        return Err(CheckFault::Shape { line });
    };
    if !are_limits(&limits) {
        return Err(CheckFault::Range { line });
    }
    Ok(limits)
}

/// Returns the limits of a request that a line of version 1 has, with the least numbers of its
/// sets.
pub(crate) fn old_limits_at(
    alloc: Global,
    lines: &[&[u8]],
    line: u32,
) -> Result<OldLimits, CheckFault>
    requires { 1 ≤ line }
    ensures told { IfOk result (IsToldInRange (texts lines.now) line IsOldLimitsRow AreOldLimits) }
    ensures fault { IfErr result
        (IsToldFault (IsFaultHere (texts lines.now) line IsOldLimitsRow AreOldLimits)) }
{
    let words = words_at(alloc, lines, line)?;
    let Some(limits) = old_limits_row(&words) else {
        return Err(CheckFault::Shape { line });
    };
    if !are_old_limits(&limits) {
        return Err(CheckFault::Range { line });
    }
    Ok(limits)
}

/// Returns the set of a line after a word.
pub(crate) fn set_at(
    alloc: Global,
    lines: &[&[u8]],
    line: u32,
    key: &[u8],
) -> Result<Allowed, CheckFault>
    requires { 1 ≤ line }
    ensures told { IfOk result (IsToldSet (texts lines.now) line key.now) }
    ensures fault { IfErr result
        (IsToldFault (IsFaultHere (texts lines.now) line (IsSetRow key.now) AreItems)) }
{
    let words = words_at(alloc, lines, line)?;
    let Some(items) = set_row(alloc, &words, key)? else {
        return Err(CheckFault::Shape { line });
    };
    let items = items.as_slice();
    if !are_items(items) {
        return Err(CheckFault::Range { line });
    }
    Ok(set_of(items))
}

/// Returns the position of a line as its words say it. It may be out of range.
fn told_place(alloc: Global, lines: &[&[u8]], line: u32) -> Result<RawPosition, CheckFault>
    requires { 1 ≤ line }
    ensures told { IfOk result
        (λ place. Tells IsPlaceRow (texts lines.now) line (position_of place)) }
    ensures fault { IfErr result (IsToldFault (IsUnformed IsPlaceRow (texts lines.now) line)) }
{
    let words = words_at(alloc, lines, line)?;
    match place_row(alloc, &words)? {
        Some(place) => Ok(place),
        None => Err(CheckFault::Shape { line }),
    }
}

/// Returns the position of a line.
pub(crate) fn place_at(
    alloc: Global,
    lines: &[&[u8]],
    line: u32,
    chambers: u64,
) -> Result<Position, CheckFault>
    requires line { 1 ≤ line }
    requires small { chambers ≤ 36 }
    ensures told { IfOk result
        (IsToldInRange (texts lines.now) line IsPlaceRow (IsInRange chambers)) }
    ensures fault { IfErr result
        (IsToldFault (IsFaultHere (texts lines.now) line IsPlaceRow (IsInRange chambers))) }
{
    let place = told_place(alloc, lines, line)?;
    if !is_in_range(chambers, &place) {
        return Err(CheckFault::Range { line });
    }
    position(alloc, &place).map_err(CheckFault::from)
}

/// Returns the position of a line of version 1.
pub(crate) fn old_place_at(
    alloc: Global,
    lines: &[&[u8]],
    line: u32,
    chambers: u64,
) -> Result<Position, CheckFault>
    requires line { 1 ≤ line }
    requires small { chambers ≤ 36 }
    ensures told { IfOk result
        (IsToldInRange (texts lines.now) line IsPlaceRow (IsInOldRange chambers)) }
    ensures fault { IfErr result
        (IsToldFault (IsFaultHere (texts lines.now) line IsPlaceRow (IsInOldRange chambers))) }
{
    let place = told_place(alloc, lines, line)?;
    if !is_in_old_range(chambers, &place) {
        return Err(CheckFault::Range { line });
    }
    position(alloc, &place).map_err(CheckFault::from)
}
