ghost use Rattle.std.specs.Prelude.{◌≡◌, ◌↔◌, IsTrue, decimal, Bool, MatchOption, IfOk};
ghost use Rattle.dd_check.specs.Numerals.{IsNumeral};
ghost use Rattle.dd_check.specs.Told.{IsWhatTells, AreLimitWords, AreOldLimitWords, IsWhatTellsEnd, IsWhatTellsJob, IsWhatTellsNumbers, IsWhatTellsPlace};
ghost use Rattle.dd_check.specs.Texts.{texts};
ghost use Rattle.dd_check.specs.Rows.{IsNumberRow, IsLimitsRow, IsOldLimitsRow, filter_word};
ghost use Rattle.dd_check.specs.declared.raw_values.Limits.{Limits};
ghost use Rattle.dd_check.specs.declared.raw_values.OldLimits.{OldLimits};

use crate::raw_values::{Limits, OldLimits, RawPosition};
use dd_model::Memory;
use itoa::Buffer;
use std::alloc::Global;
use std::str;

/// One more than the greatest number of 19 digits.
const LIMIT: u64 = 10_000_000_000_000_000_000;

/// Returns the number of a word that is written as the number is: without a leading zero, and with
/// at most 19 digits.
pub(crate) fn read_number(word: &[u8]) -> Option<u64>
    ensures { IsWhatTells IsNumeral word.now result }
{
    let text = match str::from_utf8(word) {
        Ok(text) => text,
        Err(_) => return None,
    };
    let number = match text.parse::<u64>() {
        Ok(number) => number,
        Err(_) => return None,
    };
    if number >= LIMIT {
        return None;
    }
    if !is_written(word, number) {
        return None;
    }
    Some(number)
}

/// Returns whether a word is a number in decimal.
fn is_written(word: &[u8], number: u64) -> bool
    ensures { IsTrue result ↔ (word.now ≡ decimal number) }
{
    let mut digits = Buffer::new();
    word == digits.format(number).as_bytes()
}

/// Returns the number after a word.
pub(crate) fn number_row(words: &[&[u8]], key: &[u8]) -> Option<u64>
    ensures { IsWhatTells (IsNumberRow key.now) (texts words.now) result }
{
    let [word, number] = words else { return None };
    if *word != key {
        return None;
    }
    read_number(number)
}

/// Returns the limits of a request that the words of a line are.
pub(crate) fn limits_row(words: &[&[u8]]) -> Option<Limits>
    ensures { IsWhatTells IsLimitsRow (texts words.now) result }
{
    let [word, chambers, tiles, vertices, filter] = words else {
        return None
    };
    if *word != b"request".as_slice() {
        return None;
    }
    read_limits(chambers, tiles, vertices, filter)
}

/// Returns the limits of a request that the words of a line of version 1 are, with the least
/// numbers of its sets.
pub(crate) fn old_limits_row(words: &[&[u8]]) -> Option<OldLimits>
    ensures { IsWhatTells IsOldLimitsRow (texts words.now) result }
{
    let [word, chambers, tiles, vertices, face, degree, filter] = words else {
        return None
    };
    if *word != b"request".as_slice() {
        return None;
    }
    read_old_limits(chambers, tiles, vertices, face, degree, filter)
}

/// Returns the limits of version 1 that have these words.
fn read_old_limits(
    chambers: &[u8],
    tiles: &[u8],
    vertices: &[u8],
    face: &[u8],
    degree: &[u8],
    filter: &[u8],
) -> Option<OldLimits>
    ensures { MatchOption result
        ((limits : OldLimits) → AreOldLimitWords chambers.now tiles.now vertices.now face.now
        degree.now filter.now limits → ⊥)
        (AreOldLimitWords chambers.now tiles.now vertices.now face.now degree.now filter.now) }
{
    let limits = read_limits(chambers, tiles, vertices, filter)?;
    Some(OldLimits {
        chambers: limits.chambers,
        tiles: limits.tiles,
        vertices: limits.vertices,
        least_face: read_number(face)?,
        least_degree: read_number(degree)?,
        minimal: limits.minimal,
    })
}

/// Returns the limits that have these words.
fn read_limits(chambers: &[u8], tiles: &[u8], vertices: &[u8], filter: &[u8]) -> Option<Limits>
    ensures { MatchOption result
        ((limits : Limits)
        → AreLimitWords chambers.now tiles.now vertices.now filter.now limits → ⊥)
        (AreLimitWords chambers.now tiles.now vertices.now filter.now) }
{
    Some(Limits {
        chambers: read_number(chambers)?,
        tiles: read_number(tiles)?,
        vertices: read_number(vertices)?,
        minimal: read_filter(filter)?,
    })
}

/// Returns whether only minimal symbols are asked for.
fn read_filter(word: &[u8]) -> Option<bool>
    ensures { MatchOption result ((minimal : Bool) → word.now ≡ filter_word minimal → ⊥)
        (λ minimal. word.now ≡ filter_word minimal) }
{
    if word == b"minimal".as_slice() {
        return Some(true);
    }
    if word == b"all".as_slice() {
        return Some(false);
    }
    None
}

/// Returns the position that the words of a line are.
pub(crate) fn place_row(alloc: Global, words: &[&[u8]]) -> Result<Option<RawPosition>, Memory>
    ensures { IfOk result (λ told. IsWhatTellsPlace (texts words.now) told) }
{
    let [word, first, rest @ ..] = words else {
        return Ok(None)
    };
    if *word != b"at".as_slice() {
        return Ok(None);
    }
    if rest.is_empty() {
        return Ok(end_of(first));
    }
    read_place(alloc, first, rest)
}

/// Returns the end of all positions, if the word says so.
fn end_of(word: &[u8]) -> Option<RawPosition>
    ensures { IsWhatTellsEnd word.now result }
{
    if word == b"end".as_slice() {
        return Some(RawPosition::End);
    }
    None
}

/// Returns the position that a word for its size and words for its numbers are.
fn read_place(alloc: Global, size: &[u8], rest: &[&[u8]]) -> Result<Option<RawPosition>, Memory>
    ensures { IfOk result (λ told. IsWhatTellsJob size.now (texts rest.now) told) }
{
    let Some(size) = read_number(size) else {
        return Ok(None);
    };
    match read_numbers(alloc, rest)? {
        Some(numbers) => Ok(Some(RawPosition::At(size, numbers))),
        None => Ok(None),
    }
}

/// Returns the numbers that some words are.
fn read_numbers(alloc: Global, words: &[&[u8]]) -> Result<Option<Vec<u64>>, Memory>
    ensures { IfOk result (λ told. IsWhatTellsNumbers (texts words.now) told) }
{
    let mut numbers = Vec::new(alloc);
    for word in words {
        match read_number(word) {
            Some(number) => numbers.push(number)?,
            None => return Ok(None),
        }
    }
    Ok(Some(numbers))
}
