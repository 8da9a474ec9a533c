ghost use Rattle.std.specs.Prelude.{◌≡◌, ◌++◌, ◌≤◌, OnOk, OnErr, codes, string_bytes};
ghost use Rattle.std.specs.List.{flat_map};
ghost use Rattle.dd_model.specs.Line.{after_space};
ghost use Rattle.dd_check.specs.Texts.{line_text};
ghost use Rattle.dd_check.specs.Sets.{item_text};
ghost use Rattle.dd_check.specs.Rows.{number_row, filter_word, limits_row, place_row};
ghost use Rattle.dd_check.specs.Checks.{limits_of};
ghost use Rattle.dd_check.specs.Writing.{run_of, next_item, AddsSet, AddsSetLine, AddsCheck};
ghost use Rattle.dd_check.specs.Writing.{AddsShardCheck};
ghost use Rattle.dd_check.specs.ShardChecks.{shard_line};

use crate::checkpoint::Checkpoint;
use crate::sets::{begins_run, last_of_run};
use dd_front_jobs::Shard;
use dd_model::{Allowed, Job, Memory, Position, Request};
use std::alloc::AllocError;
use std::fmt::Write;

/// Appends the text of a checkpoint. After `Err` the text is as before.
pub fn write_checkpoint(out: &mut Vec<u8>, c: &Checkpoint) -> Result<(), Memory>
    ensures check { OnOk result (AddsCheck c.now out.old.items out.new.items) }
    ensures same { OnErr result (out.new.items ≡ out.old.items) }
{
    let mut text = String::new(*out.allocator());
    put_checkpoint(&mut text, c)?;
    Ok(out.extend_from_slice(text.as_bytes())?)
}

/// Appends the line of a shard and the text of a checkpoint. After `Err` the text is as before.
pub fn write_shard(out: &mut Vec<u8>, shard: Shard, c: &Checkpoint) -> Result<(), Memory>
    ensures check { OnOk result (AddsShardCheck shard c.now out.old.items out.new.items) }
    ensures same { OnErr result (out.new.items ≡ out.old.items) }
{
    let mut text = String::new(*out.allocator());
    put_shard(&mut text, shard, c)?;
    Ok(out.extend_from_slice(text.as_bytes())?)
}

/// Appends the line of a shard and the lines of a checkpoint.
fn put_shard(text: &mut String, shard: Shard, c: &Checkpoint) -> Result<(), AllocError>
    ensures { OnOk result
        (AddsShardCheck shard c.now (string_bytes text.old) (string_bytes text.new)) }
{
    put_shard_line(text, shard)?;
    put_checkpoint(text, c)
}

/// Appends the line with the numbers of a shard.
fn put_shard_line(text: &mut String, shard: Shard) -> Result<(), AllocError>
    ensures { OnOk result (string_bytes text.new ≡ string_bytes text.old ++ shard_line shard) }
{
    writeln!(text, "dressline shard {} {}", shard.index(), shard.count())
}

/// Appends the lines of a checkpoint.
fn put_checkpoint(text: &mut String, c: &Checkpoint) -> Result<(), AllocError>
    ensures { OnOk result (AddsCheck c.now (string_bytes text.old) (string_bytes text.new)) }
{
    put_first_lines(text, c)?;
    put_set_line(text, "faces", &c.request.faces)?;
    put_set_line(text, "degrees", &c.request.degrees)?;
    put_last_lines(text, c)
}

/// Appends the lines before those of the sets.
fn put_first_lines(text: &mut String, c: &Checkpoint) -> Result<(), AllocError>
    ensures { OnOk result (string_bytes text.new
        ≡ string_bytes text.old ++ codes "dressline checkpoint 2\n"
        ++ line_text (number_row (codes "run") c.now.run)
        ++ line_text (limits_row (limits_of c.now.request))) }
{
    writeln!(text, "dressline checkpoint 2\nrun {}", c.run)?;
    put_limits_line(text, &c.request)
}

/// Appends the lines after those of the sets.
fn put_last_lines(text: &mut String, c: &Checkpoint) -> Result<(), AllocError>
    ensures { OnOk result (string_bytes text.new ≡ string_bytes text.old
        ++ line_text (number_row (codes "lines") c.now.lines)
        ++ line_text (number_row (codes "bytes") c.now.bytes) ++ line_text (place_row c.now.at)) }
{
    writeln!(text, "lines {}\nbytes {}", c.lines, c.bytes)?;
    put_place_line(text, &c.at)
}

/// Appends the line of the limits of a request.
fn put_limits_line(text: &mut String, q: &Request) -> Result<(), AllocError>
    ensures { OnOk result (string_bytes text.new
        ≡ string_bytes text.old ++ line_text (limits_row (limits_of q.now))) }
{
    let filter = filter_word(q.minimal);
    writeln!(
        text,
        "request {} {} {} {filter}",
        q.chambers, q.tiles, q.vertices
    )
}

/// Returns the word for the minimal symbols, or for all.
fn filter_word(minimal: bool) -> &'static str
    ensures { result.now ≡ filter_word minimal }
{
    if minimal { "minimal" } else { "all" }
}

/// Appends a line of a word and the items of a set.
fn put_set_line(text: &mut String, key: &str, set: &Allowed) -> Result<(), AllocError>
    ensures { OnOk result
        (AddsSetLine key.now set.now (string_bytes text.old) (string_bytes text.new)) }
{
    write!(text, "{key} ")?;
    put_set(text, set)?;
    writeln!(text)
}

/// Appends the items of a set: its longest rows of numbers, in order, with commas between them.
fn put_set(text: &mut String, set: &Allowed) -> Result<(), AllocError>
    ensures { OnOk result (AddsSet set.now (string_bytes text.old) (string_bytes text.new)) }
{
    let mut begun = false;
    for number in 1..217 {
        if begins_run(set, number) {
            let last = last_of_run(set, number);
            put_item(text, begun, number, last)?;
            begun = true;
        }
    }
    Ok(())
}

/// Appends the numbers from low to high as an item, after a comma where the set has begun.
fn put_item(text: &mut String, begun: bool, low: u32, high: u32) -> Result<(), AllocError>
    requires { low ≤ high }
    ensures { OnOk result (string_bytes text.new
        ≡ string_bytes text.old ++ next_item begun (run_of low high)) }
{
    if begun {
        write!(text, ",")?;
    }
    put_ends(text, low, high)
}

/// Appends one number, or two with a dash between them.
fn put_ends(text: &mut String, low: u32, high: u32) -> Result<(), AllocError>
    ensures { OnOk result (string_bytes text.new
        ≡ string_bytes text.old ++ item_text (run_of low high)) }
{
    if low == high {
        write!(text, "{low}")
    } else {
        write!(text, "{low}-{high}")
    }
}

/// Appends the line of a position.
fn put_place_line(text: &mut String, at: &Position) -> Result<(), AllocError>
    ensures { OnOk result (string_bytes text.new
        ≡ string_bytes text.old ++ line_text (place_row at.now)) }
{
    match at {
        Position::At(job) => put_job_line(text, job),
        Position::End => writeln!(text, "at end"),
    }
}

/// Appends the line of a position at a job, by the size and the numbers of the job.
fn put_job_line(text: &mut String, job: &Job) -> Result<(), AllocError>
    ensures { OnOk result (string_bytes text.new
        ≡ string_bytes text.old ++ line_text (place_row (Position.At job.now))) }
{
    write!(text, "at {}", job.size)?;
    put_all(text, job.prefix.as_slice())?;
    writeln!(text)
}

/// Appends numbers, each after a space.
fn put_all(text: &mut String, numbers: &[u8]) -> Result<(), AllocError>
    ensures { OnOk result (string_bytes text.new
        ≡ string_bytes text.old ++ flat_map after_space numbers.now) }
{
    for number in numbers {
        write!(text, " {number}")?;
    }
    Ok(())
}
