ghost use Rattle.std.specs.Prelude.{◌↔◌, ◌++◌, IfOk, IfErr, IsTrue, MatchOption};
ghost use Rattle.std.specs.List.{Contains};
ghost use Rattle.dd_model.specs.Request.{IsValid};
ghost use Rattle.dd_front_jobs.specs.declared.shards.Shard.{Shard as ShardNumbers};
ghost use Rattle.dd_front_jobs.specs.Shards.{IsShardJob};
ghost use Rattle.dd_check.specs.Texts.{Text};
ghost use Rattle.dd_check.specs.Places.{opening_job};
ghost use Rattle.dd_check.specs.ShardChecks.{IsShardPlace, IsShardCheckpoint};
ghost use Rattle.dd_check.specs.ShardFaults.{shard_words, AreDigits, IsRest, IsReturnedFault};

use crate::checkpoint::Checkpoint;
use crate::checkpoint_reader::read_checkpoint;
use crate::faults::{CheckFault, ShardFault};
use dd_front_jobs::{Shard, shard_opening};
use dd_model::{Job, Memory, Position, Request};
use std::alloc::Global;

/// The byte of the digit 0.
const DIGIT: u32 = 48;

/// Returns the shard and the values of a text of a shard: a line with the numbers of the shard, and
/// a checkpoint text of version 2 or 1.
pub fn read_shard(alloc: Global, bytes: &[u8]) -> Result<(Shard, Checkpoint), ShardFault>
    ensures read { IfOk result (λ told. IsShardCheckpoint told.0 bytes.now told.1) }
    ensures fault { IfErr result (IsReturnedFault bytes.now) }
{
    let Some((shard, rest)) = shard_and_rest(bytes) else {
        return Err(ShardFault::First);
    };
    let check = match read_checkpoint(alloc, rest) {
        Ok(check) => check,
        Err(CheckFault::Memory) => return Err(ShardFault::Memory),
        Err(fault) => return Err(ShardFault::Check(fault)),
    };
    if !is_shard_place(alloc, &check.request, shard, &check.at)? {
        return Err(ShardFault::Other);
    }
    Ok((shard, check))
}

/// Returns the shard of the first line of a text, and what comes after the line.
fn shard_and_rest(bytes: &[u8]) -> Option<(Shard, &[u8])>
    ensures { MatchOption result
        ((shard : ShardNumbers) (rest : Text) → IsRest shard bytes.now rest → ⊥)
        (λ told. IsRest told.0 bytes.now told.1.now) }
{
    numbers_and_rest(bytes.strip_prefix(b"dressline shard ")?)
}

/// Returns the shard of a line whose words come before the bytes, and what comes after the line.
fn numbers_and_rest(bytes: &[u8]) -> Option<(Shard, &[u8])>
    ensures { MatchOption result
        ((shard : ShardNumbers) (rest : Text) → IsRest shard (shard_words ++ bytes.now) rest → ⊥)
        (λ told. IsRest told.0 (shard_words ++ bytes.now) told.1.now) }
{
    let [index, space, count, feed, rest @ ..] = bytes else {
        return None;
    };
    if *space != b' ' || *feed != b'\n' {
        return None;
    }
    let Some(shard) = shard_of(*index, *count) else {
        return None;
    };
    Some((shard, rest))
}

/// Returns the shard of the digits of its numbers.
fn shard_of(index: u8, count: u8) -> Option<Shard>
    ensures { MatchOption result ((shard : ShardNumbers) → AreDigits shard index count → ⊥)
        (λ shard. AreDigits shard index count) }
{
    let index = u32::from(index).checked_sub(DIGIT)?;
    let count = u32::from(count).checked_sub(DIGIT)?;
    Shard::new(index, count)
}

/// Returns whether a position is the end, or has a job of a shard as its first numbers.
fn is_shard_place(alloc: Global, q: &Request, shard: Shard, at: &Position) -> Result<bool, Memory>
    requires { IsValid q.now }
    ensures { IfOk result (λ answer. IsTrue answer ↔ IsShardPlace q.now shard at.now) }
{
    match at {
        Position::At(job) => is_shard_job(alloc, q, shard, job),
        Position::End => Ok(true),
    }
}

/// Returns whether the first numbers of a job are a job of a shard.
fn is_shard_job(alloc: Global, q: &Request, shard: Shard, job: &Job) -> Result<bool, Memory>
    requires { IsValid q.now }
    ensures { IfOk result (λ answer. IsTrue answer
        ↔ IsShardJob q.now shard (opening_job job.now)) }
{
    let numbers = job.prefix.as_slice();
    let count = (3 * job.size as usize).min(9).min(numbers.len());
    let jobs = shard_opening(alloc, q, shard)?;
    Ok(is_listed(&jobs, job.size, &numbers[..count]))
}

/// Returns whether a list has the job of this size with these numbers.
fn is_listed(jobs: &[Job], size: u32, numbers: &[u8]) -> bool
    ensures { IsTrue result
        ↔ Contains jobs.now (record { size = size; prefix = numbers.now }) }
{
    for job in jobs {
        if job.size == size && job.prefix.as_slice() == numbers {
            return true;
        }
    }
    false
}
