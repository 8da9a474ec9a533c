ghost use Rattle.std.specs.Prelude.{IfOk, IfErr};
ghost use Rattle.dd_check.specs.Texts.{Text, texts};
ghost use Rattle.dd_check.specs.Faults.{IsLineFault, IsOldLineFault};
ghost use Rattle.dd_check.specs.Lines.{IsToldFault};
ghost use Rattle.dd_check.specs.Readings.{TellsCheck, TellsOldCheck};
ghost use Rattle.dd_check.specs.Accepted.{IsCheckpointText};
ghost use Rattle.dd_check.specs.Refusals.{HasFault};
ghost use Rattle.dd_check.specs.Outcomes.{AreShortLines, AreNewLines, AreOldLines, IsReading};

use crate::checkpoint::Checkpoint;
use crate::faults::CheckFault;
use crate::lines::{
    end_at, is_first, limits_at, number_at, old_limits_at, old_place_at, parts, place_at, set_at,
};
use crate::ranges::{is_old_place, is_place};
use dd_model::{Allowed, Request};
use std::alloc::Global;

/// The greatest number of bytes of a text.
const LONGEST: usize = 4_096;

/// The greatest number of a run.
const LAST_RUN: u64 = 999_999_999;

/// The greatest number of lines, and of bytes.
const MOST: u64 = 1_000_000_000_000_000_000;

/// Returns the values of a checkpoint text of version 2 or 1.
pub fn read_checkpoint(alloc: Global, bytes: &[u8]) -> Result<Checkpoint, CheckFault>
    ensures read { IfOk result (IsCheckpointText bytes.now) }
    ensures fault { IfErr result (IsToldFault (HasFault bytes.now)) }
{
    if bytes.len() > LONGEST {
        return Err(CheckFault::Long);
    }
    let lines = parts(alloc, bytes, b'\n')?;
    read_text(alloc, &lines)
}

/// Returns the values of the lines of a text of version 2 or 1.
fn read_text(alloc: Global, lines: &[&[u8]]) -> Result<Checkpoint, CheckFault>
    ensures { (text : Text) → AreShortLines text (texts lines.now) → IsReading text result }
{
    if is_first(lines, b"dressline checkpoint 2") {
        read_new(alloc, lines)
    } else if is_first(lines, b"dressline checkpoint 1") {
        read_old(alloc, lines)
    } else {
        Err(CheckFault::Version)
    }
}

/// Returns the values of the lines of a text of version 2.
fn read_new(alloc: Global, lines: &[&[u8]]) -> Result<Checkpoint, CheckFault>
    ensures { (text : Text) → AreNewLines text (texts lines.now) → IsReading text result }
{
    let c = read_lines(alloc, lines)?;
    if is_place(alloc, &c.request, &c.at)? {
        Ok(c)
    } else {
        Err(CheckFault::Position)
    }
}

/// Returns the values of the lines of a text of version 1.
fn read_old(alloc: Global, lines: &[&[u8]]) -> Result<Checkpoint, CheckFault>
    ensures { (text : Text) → AreOldLines text (texts lines.now) → IsReading text result }
{
    let c = read_old_lines(alloc, lines)?;
    if is_old_place(&c.request, &c.at) {
        Ok(c)
    } else {
        Err(CheckFault::Position)
    }
}

/// Returns the values of the lines of version 2 from the second line on.
fn read_lines(alloc: Global, lines: &[&[u8]]) -> Result<Checkpoint, CheckFault>
    ensures told { IfOk result (TellsCheck (texts lines.now)) }
    ensures fault { IfErr result (IsToldFault (IsLineFault (texts lines.now))) }
{
    let run = number_at(alloc, lines, 2, b"run", 1, LAST_RUN)?;
    let limits = limits_at(alloc, lines, 3)?;
    let faces = set_at(alloc, lines, 4, b"faces")?;
    let degrees = set_at(alloc, lines, 5, b"degrees")?;
    let count = number_at(alloc, lines, 6, b"lines", 0, MOST)?;
    let bytes = number_at(alloc, lines, 7, b"bytes", 0, MOST)?;
    let at = place_at(alloc, lines, 8, limits.chambers)?;
    end_at(lines, 9)?;
    Ok(Checkpoint {
        run: run as u32,
        request: Request {
            chambers: limits.chambers as u32,
            tiles: limits.tiles as u32,
            vertices: limits.vertices as u32,
            faces,
            degrees,
            minimal: limits.minimal,
        },
        lines: u128::from(count),
        bytes: u128::from(bytes),
        at,
    })
}

/// Returns the values of the lines of version 1 from the second line on.
fn read_old_lines(alloc: Global, lines: &[&[u8]]) -> Result<Checkpoint, CheckFault>
    ensures told { IfOk result (TellsOldCheck (texts lines.now)) }
    ensures fault { IfErr result (IsToldFault (IsOldLineFault (texts lines.now))) }
{
    let run = number_at(alloc, lines, 2, b"run", 1, LAST_RUN)?;
    let limits = old_limits_at(alloc, lines, 3)?;
    let count = number_at(alloc, lines, 4, b"lines", 0, MOST)?;
    let bytes = number_at(alloc, lines, 5, b"bytes", 0, MOST)?;
    let at = old_place_at(alloc, lines, 6, limits.chambers)?;
    end_at(lines, 7)?;
    Ok(Checkpoint {
        run: run as u32,
        request: Request {
            chambers: limits.chambers as u32,
            tiles: limits.tiles as u32,
            vertices: limits.vertices as u32,
            faces: Allowed::least(limits.least_face as u32),
            degrees: Allowed::least(limits.least_degree as u32),
            minimal: limits.minimal,
        },
        lines: u128::from(count),
        bytes: u128::from(bytes),
        at,
    })
}
