ghost use Rattle.std.specs.Prelude.{IfOk};
ghost use Rattle.dd_model.specs.Text.{AreLines};

use dd_model::{Memory, put_bytes};
use dd_symbol::Connected;
use dd_text::put_lines;
use std::alloc::Global;
use std::thread;
use std::thread::Threads;

/// The most parts, each of which has a thread.
const PARTS: usize = 8;

/// How many symbols a part has at least, so that its thread is worth its start.
const FEWEST: usize = 2048;

/// Returns the lines of symbols, numbered from `before + 1` on.
fn lines_from(alloc: Global, before: u64, symbols: &[Connected]) -> Result<Vec<u8>, Memory>
    ensures { IfOk result (λ lines. AreLines before symbols.now lines.items) }
{
    let mut lines = Vec::new(alloc);
    put_lines(&mut lines, before, symbols)?;
    Ok(lines)
}

/// Returns the lines of symbols, numbered from 1. If there are many, threads make the lines of
/// parts.
pub(crate) fn lines_by_parts<R: Threads + Sync>(
    rt: &R,
    alloc: Global,
    symbols: &[Connected],
) -> Result<Vec<u8>, Memory>
    ensures { IfOk result (λ text. AreLines 0 symbols.now text.items) }
{
    let size = symbols.len().div_ceil(PARTS).max(FEWEST);
    let make = |start: usize, part: &[Connected]| -> Result<Vec<u8>, Memory>
        ensures { IfOk result (λ lines. AreLines start part.now lines.items) }
    { lines_from(alloc, start as u64, part) };
    let parts = thread::map_chunks(rt, alloc, symbols, size, &make)?;
    let mut text = Vec::new(alloc);
    for lines in parts {
        let lines = lines?;
        put_bytes(&mut text, &lines)?;
    }
    Ok(text)
}
