ghost use Rattle.std.specs.Prelude.{◌+◌, ◌*◌, ◌≤◌, ◌<◌, ◌^◌, IfOk, length};
ghost use Rattle.dd_model.specs.Text.{AreLines};
ghost use Rattle.dd_pages_and_checkpoints.specs.Texts.{joined};
ghost use Rattle.dd_pages_and_checkpoints.specs.Parts.{AreParts};

use crate::numbered_members::NumberedMembers;
use crate::tuning::{FEWEST, PARTS};
use dd_front::Members;
use dd_model::Memory;
use dd_text::put_list;
use std::thread;
use std::thread::Threads;

/// Returns how many bytes the lines of some members take, or a few more. A catalogue goes by size,
/// so the first member decides.
fn room_for(members: &Members) -> usize {
    let Some(first) = members.spans().first() else {
        return 0;
    };
    let symbols = first.symbols();
    if symbols.len() == 0 {
        return 0;
    }
    let line = 6 * symbols.alike_from(0).table().symbol().size() as usize + 24;
    let count = members.len().min(u64::MAX as u128) as usize;
    count.saturating_mul(line)
}

/// The lines of a part. Its members are given back here, by the thread that has just read them.
fn lines_of(part: NumberedMembers) -> Result<Vec<u8>, Memory>
    ensures { IfOk result (λ lines. AreLines part.before part.members lines.items) }
{
    let room = room_for(&part.members);
    let mut lines = Vec::with_capacity(*part.members.allocator(), room)?;
    let mut before = part.before;
    for span in part.members.spans() {
        put_list(&mut lines, before, &span.symbols())?;
        before += span.len() as u64;
    }
    Ok(lines)
}

/// Cuts members into parts of `size` members. The first part may be shorter. They are taken off the
/// end.
fn parts_of(size: usize, before: u64, mut members: Members) -> Result<Vec<NumberedMembers>, Memory>
    requires size { 1 ≤ size }
    requires few { before + length members < 2 ^ 64 }
    ensures { IfOk result (λ parts. AreParts before members parts.items) }
{
    let mut parts = Vec::new(*members.allocator());
    while members.len() > size as u128 {
        let kept = members.len() - size as u128;
        let mut part = members.share()?;
        part.skip(kept);
        members.keep(kept);
        parts.push(NumberedMembers {
            before: before + kept as u64,
            members: part,
        })?;
    }
    parts.push(NumberedMembers { before, members })?;
    parts.reverse();
    Ok(parts)
}

/// Returns the lines of members, numbered from `before + 1` on, as texts that follow each other. If
/// there are many, a few parts for each of the threads are made at once.
pub(crate) fn lines_by<R: Threads + Sync>(
    rt: &R,
    threads: u32,
    before: u64,
    members: Members,
) -> Result<Vec<Vec<u8>>, Memory>
    requires few { before + length members < 2 ^ 64 }
    ensures lines { IfOk result (λ texts. AreLines before members (joined texts.items)) }
    ensures few { IfOk result
        (λ texts. length (joined texts.items) ≤ 2 ^ 63 * length members) }
{
    let alloc = *members.allocator();
    let count = members.len() as usize;
    let size = count.div_ceil(PARTS * threads.max(1) as usize).max(FEWEST);
    let parts = parts_of(size, before, members)?;
    let made = thread::map_vec(rt, parts, &lines_of)?;
    let mut texts = Vec::with_capacity(alloc, made.len())?;
    for lines in made {
        texts.push(lines?)?;
    }
    Ok(texts)
}
