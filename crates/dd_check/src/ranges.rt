ghost use Rattle.std.specs.Prelude.{◌≡◌, ◌⊎◌, ◌↔◌, ◌*◌, ◌<◌, ◌≤◌, IsTrue, ℕ, IfOk, length, slice_index};
ghost use Rattle.dd_check.specs.Ranges.{IsFromTo, AreLimits, AreOldLimits, AreImagesAndDegrees, AreImages, IsInRange, IsInOldRange};
ghost use Rattle.dd_check.specs.Told.{position_of, IsSmallPlace};
ghost use Rattle.dd_front_jobs.specs.Opening.{IsOpeningJob};
ghost use Rattle.dd_check.specs.Places.{IsOldPlace, IsPlace, IsWholePlace};

use crate::raw_values::{Limits, OldLimits, RawPosition};
use dd_front_jobs::is_opening;
use dd_model::{Job, Memory, Position, Prefix, Request};
use std::alloc::Global;

/// Returns whether the numbers of a request are in range.
pub(crate) fn are_limits(limits: &Limits) -> bool
    ensures { IsTrue result ↔ AreLimits limits.now }
{
    limits.chambers >= 1 && limits.chambers <= 36 && limits.tiles <= 36 && limits.vertices <= 36
}

/// Returns whether the numbers of a request of version 1 are in range.
pub(crate) fn are_old_limits(limits: &OldLimits) -> bool
    ensures { IsTrue result ↔ AreOldLimits limits.now }
{
    is_from_to(1, 36, limits.chambers)
        && limits.tiles <= 36
        && limits.vertices <= 36
        && is_from_to(1, 36, limits.least_face)
        && is_from_to(1, 36, limits.least_degree)
}

/// Returns whether a number is from low to high.
pub(crate) fn is_from_to(low: u64, high: u64, number: u64) -> bool
    ensures { IsTrue result ↔ IsFromTo low high number }
{
    low <= number && number <= high
}

/// Returns whether a position is in range: at most 180 numbers, images and then degrees.
pub(crate) fn is_in_range(chambers: u64, place: &RawPosition) -> bool
    requires { chambers ≤ 36 }
    ensures { IsTrue result ↔ IsInRange chambers (position_of place.now) }
{
    match place {
        RawPosition::At(size, numbers) => {
            is_from_to(1, chambers, *size)
                && numbers.len() <= 180
                && are_images_and_degrees(*size, numbers)
        }
        RawPosition::End => true,
    }
}

/// Returns whether a position of version 1 is in range: at most 108 numbers, which are images.
pub(crate) fn is_in_old_range(chambers: u64, place: &RawPosition) -> bool
    ensures { IsTrue result ↔ IsInOldRange chambers (position_of place.now) }
{
    match place {
        RawPosition::At(size, numbers) => {
            is_from_to(1, chambers, *size) && numbers.len() <= 108 && are_images(*size, numbers)
        }
        RawPosition::End => true,
    }
}

/// Returns whether the first numbers are chambers, and those after them degrees.
fn are_images_and_degrees(size: u64, numbers: &[u64]) -> bool
    requires { size ≤ 36 }
    ensures { IsTrue result ↔ AreImagesAndDegrees size numbers.now }
{
    for place in 0..numbers.len() {
        if !is_from_to(1, greatest_at(size, place as u64), numbers[place]) {
            return false;
        }
    }
    true
}

/// Returns the greatest number that may be at a place of a code, counted from 0.
fn greatest_at(size: u64, place: u64) -> u64
    requires { size ≤ 36 }
    ensures { ((place < 3 * size) × (result ≡ size)) ⊎ ((3 * size ≤ place) × (result ≡ 216)) }
{
    if place < 3 * size { size } else { 216 }
}

/// Returns whether all numbers are chambers.
fn are_images(size: u64, numbers: &[u64]) -> bool
    ensures { IsTrue result ↔ AreImages size numbers.now }
{
    for place in 0..numbers.len() {
        if !is_from_to(1, size, numbers[place]) {
            return false;
        }
    }
    true
}

/// Returns the position that a text gives.
pub(crate) fn position(alloc: Global, place: &RawPosition) -> Result<Position, Memory>
    requires { IsSmallPlace place.now }
    ensures { IfOk result (λ at. at ≡ position_of place.now) }
{
    match place {
        RawPosition::At(size, numbers) => {
            let size = *size as u32;
            let prefix = prefix_of(alloc, numbers)?;
            Ok(Position::At(Job { size, prefix }))
        }
        RawPosition::End => Ok(Position::End),
    }
}

/// Returns the prefix that has these numbers.
fn prefix_of(alloc: Global, numbers: &[u64]) -> Result<Prefix, Memory>
    requires { (t : ℕ) → t < length numbers.now → slice_index numbers.now t ≤ 216 }
    ensures { IfOk result (λ prefix. prefix ≡ numbers.now) }
{
    let mut bytes = Vec::new(alloc);
    for number in numbers {
        bytes.push(*number as u8)?;
    }
    Prefix::from_slice(alloc, &bytes)
}

/// Returns whether a catalogue may stop at a position: at the end, at a job of the opening, or at a
/// whole code. A whole code is given by its size and as many numbers as it has, of which the first
/// are a job of the opening.
pub(crate) fn is_place(alloc: Global, q: &Request, at: &Position) -> Result<bool, Memory>
    ensures { IfOk result (λ answer. IsTrue answer ↔ IsPlace q.now at.now) }
{
    match at {
        Position::At(job) => is_job_place(alloc, q, job),
        Position::End => Ok(true),
    }
}

/// Returns whether a job is one of the opening, or has as many numbers as a whole code.
fn is_job_place(alloc: Global, q: &Request, job: &Job) -> Result<bool, Memory>
    ensures { IfOk result (λ answer. IsTrue answer
        ↔ (IsOpeningJob q.now job.now ⊎ IsWholePlace q.now job.now)) }
{
    if is_opening(q, job) {
        return Ok(true);
    }
    is_whole_place(alloc, q, job)
}

/// Returns whether a job has as many numbers as a whole code, and the first are a job of the
/// opening.
fn is_whole_place(alloc: Global, q: &Request, job: &Job) -> Result<bool, Memory>
    ensures { IfOk result (λ answer. IsTrue answer ↔ IsWholePlace q.now job.now) }
{
    let numbers = job.prefix.as_slice();
    if numbers.len() as u64 != 5 * job.size as u64 {
        return Ok(false);
    }
    let count = (3 * job.size as usize).min(9);
    let prefix = Prefix::from_slice(alloc, &numbers[..count])?;
    let first = Job {
        size: job.size,
        prefix,
    };
    Ok(is_opening(q, &first))
}

/// Returns whether a catalogue may stop at a position of version 1: at the end, or at a job of the
/// opening.
pub(crate) fn is_old_place(q: &Request, at: &Position) -> bool
    ensures { IsTrue result ↔ IsOldPlace q.now at.now }
{
    match at {
        Position::At(job) => is_opening(q, job),
        Position::End => true,
    }
}
