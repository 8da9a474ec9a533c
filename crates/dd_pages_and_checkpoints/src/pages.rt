ghost use Rattle.std.specs.Prelude.{◌≡◌, ◌+◌, ◌*◌, ◌^◌, ◌≤◌, ℕ, List, [], Option, OnOk, true, length};
ghost use Rattle.dd_ports.specs.declared.sink.SinkFault.TheVariants.{Failed};
ghost use Rattle.dd_ports.specs.Causes.{HasCause};
ghost use Rattle.dd_ports.specs.States.{SinkStaysSure};
ghost use Rattle.dd_pages_and_checkpoints.specs.MostLines.{most_lines};

use crate::collected::Collected;
use crate::lines::lines_by;
use crate::tuning::{BATCH, PART};
use dd_front::Members;
use dd_member_lists::Symbols;
use dd_model::Memory;
use dd_ports::{Sink, SinkFault};
use dd_text::put_list;
use std::alloc::Global;
use std::mem;
use std::thread::Threads;

/// Lines on their way out: members that wait for their lines, and lines that are collected. The
/// page also has the number of the last line of all these. No line has 2^63 bytes, so 128 bits
/// count the bytes of all lines.
#[derive(Drop)]
pub struct Page {
    waiting: Members,
    /// How many members wait, which `waiting` would have to count.
    waits: u64,
    pub collected: Collected,
    pub count: u64,
    ghost few: { collected.written + length collected.lines.items + 2 ^ 63 * length waiting
        ≤ 2 ^ 63 * count },
}

impl Page {
    ghost use Rattle.dd_pages_and_checkpoints.specs.Pages.{IsEmpty, KeepsLines, AddsAll, WritesFront, WritesFrontOf};

    /// Returns an empty page after `count` lines.
    pub fn new(alloc: Global, count: u64) -> Page
        ensures empty { IsEmpty result }
        ensures count { result.count ≡ count }
        ensures written { result.collected.written ≡ 0 }
    {
        Page {
            waiting: Members::none(alloc),
            waits: 0,
            collected: Collected {
                lines: Vec::new(alloc),
                written: 0,
            },
            count,
        }
    }

    /// Makes the lines of the members that wait, by `threads` threads, and writes lines once there
    /// are enough.
    fn render<R: Threads + Sync, O: Sink>(
        &mut self,
        rt: &R,
        threads: u32,
        out: &mut O,
    ) -> Result<(), SinkFault>
        ensures kept { OnOk result
            (KeepsLines (O.held out.old) (O.held out.new) self.old self.new) }
        ensures rendered { OnOk result (self.new.waiting ≡ []) }
        ensures count { self.new.count ≡ self.old.count }
        ensures front { WritesFront (O.held out.old) (O.held out.new) self.old }
        ensures cause { HasCause Failed (O.faults out.old) (O.faults out.new) result }
        ensures sure { SinkStaysSure O.Sink Failed out.old out.new result }
    {
        if self.waiting.len() == 0 {
            return Ok(());
        }
        let before = self.count - self.waiting.len() as u64;
        let alloc = *self.waiting.allocator();
        let members = mem::replace(&mut self.waiting, Members::none(alloc));
        self.waits = 0;
        let Ok(texts) = lines_by(rt, threads, before, members) else {
            return Err(SinkFault::Memory);
        };
        self.collected.put_all(texts, out)?;
        Ok(())
    }

    /// Makes the lines of the members that wait, and writes all that is collected.
    pub fn flush<R: Threads + Sync, O: Sink>(
        &mut self,
        rt: &R,
        threads: u32,
        out: &mut O,
    ) -> Result<(), SinkFault>
        ensures kept { OnOk result
            (KeepsLines (O.held out.old) (O.held out.new) self.old self.new) }
        ensures empty { OnOk result (IsEmpty self.new) }
        ensures count { self.new.count ≡ self.old.count }
        ensures front { WritesFront (O.held out.old) (O.held out.new) self.old }
        ensures cause { HasCause Failed (O.faults out.old) (O.faults out.new) result }
        ensures sure { SinkStaysSure O.Sink Failed out.old out.new result }
    {
        self.render(rt, threads, out)?;
        self.collected.write(out)?;
        Ok(())
    }

    /// Lets members wait for their lines, behind all others. If memory runs out, the page is of no
    /// further use.
    fn wait(&mut self, members: Members) -> Result<(), Memory>
        requires few { self.old.count + length members ≤ most_lines }
        ensures lines { OnOk result
            ((held : Option (List ℕ)) → AddsAll held held self.old self.new members) }
        ensures count { OnOk result (self.new.count ≡ self.old.count + length members) }
    {
        let more = members.len() as u64;
        self.count += more;
        self.waits = self.waits.saturating_add(more);
        self.waiting.append(members)?;
        Ok(())
    }

    /// Makes the lines of the next members, where none waits before them, and writes lines once
    /// there are enough. After an error the page is of no further use.
    fn add_part<O: Sink>(&mut self, part: &Symbols<'_>, out: &mut O) -> Result<(), SinkFault>
        requires waiting { self.old.waiting ≡ [] }
        requires few { self.old.count + length part.now ≤ most_lines }
        ensures all { OnOk result
            (AddsAll (O.held out.old) (O.held out.new) self.old self.new part.now) }
        ensures waiting { OnOk result (self.new.waiting ≡ []) }
        ensures count { OnOk result (self.new.count ≡ self.old.count + length part.now) }
        ensures front { WritesFrontOf (O.held out.old) (O.held out.new) self.old part.now }
        ensures cause { HasCause Failed (O.faults out.old) (O.faults out.new) result }
        ensures sure { SinkStaysSure O.Sink Failed out.old out.new result }
    {
        let before = self.count;
        self.count = before + part.len() as u64;
        let Ok(()) = put_list(&mut self.collected.lines, before, part) else {
            return Err(SinkFault::Memory);
        };
        self.collected.write_if_full(out)?;
        Ok(())
    }

    /// Makes the lines of a list of members part by part, where none waits before them, so that few
    /// lines are collected at a time.
    fn add_list<O: Sink>(&mut self, list: Symbols<'_>, out: &mut O) -> Result<(), SinkFault>
        requires waiting { self.old.waiting ≡ [] }
        requires few { self.old.count + length list ≤ most_lines }
        ensures all { OnOk result
            (AddsAll (O.held out.old) (O.held out.new) self.old self.new list.entry) }
        ensures waiting { OnOk result (self.new.waiting ≡ []) }
        ensures count { OnOk result (self.new.count ≡ self.old.count + length list.entry) }
        ensures front { WritesFrontOf (O.held out.old) (O.held out.new) self.old list.entry }
        ensures cause { HasCause Failed (O.faults out.old) (O.faults out.new) result }
        ensures sure { SinkStaysSure O.Sink Failed out.old out.new result }
    {
        let mut left = list;
        while left.len() > 0 {
            let (part, later) = left.split_at(left.len().min(PART));
            self.add_part(&part, out)?;
            left = later;
        }
        Ok(())
    }

    /// Takes the next members, whose lines one thread makes list by list.
    fn add_in_parts<R: Threads + Sync, O: Sink>(
        &mut self,
        rt: &R,
        members: &Members,
        out: &mut O,
    ) -> Result<(), SinkFault>
        requires few { self.old.count + length members.now ≤ most_lines }
        ensures all { OnOk result
            (AddsAll (O.held out.old) (O.held out.new) self.old self.new members.now) }
        ensures count { OnOk result (self.new.count ≡ self.old.count + length members.now) }
        ensures front { WritesFrontOf (O.held out.old) (O.held out.new) self.old members.now }
        ensures cause { HasCause Failed (O.faults out.old) (O.faults out.new) result }
        ensures sure { SinkStaysSure O.Sink Failed out.old out.new result }
    {
        // The lines of members that wait come before these.
        self.render(rt, 1, out)?;
        for span in members.spans() {
            self.add_list(span.symbols(), out)?;
        }
        Ok(())
    }

    /// Takes the next members, whose lines `threads` threads make, and writes lines once there are
    /// enough.
    pub fn add<R: Threads + Sync, O: Sink>(
        &mut self,
        rt: &R,
        threads: u32,
        members: Members,
        out: &mut O,
    ) -> Result<(), SinkFault>
        requires few { self.old.count + length members ≤ most_lines }
        ensures all { OnOk result
            (AddsAll (O.held out.old) (O.held out.new) self.old self.new members) }
        ensures count { OnOk result (self.new.count ≡ self.old.count + length members) }
        ensures front { WritesFrontOf (O.held out.old) (O.held out.new) self.old members }
        ensures cause { HasCause Failed (O.faults out.old) (O.faults out.new) result }
        ensures sure { SinkStaysSure O.Sink Failed out.old out.new result }
    {
        if threads == 1 {
            return self.add_in_parts(rt, &members, out);
        }
        let Ok(()) = self.wait(members) else {
            return Err(SinkFault::Memory);
        };
        if self.waits < BATCH {
            return Ok(());
        }
        self.render(rt, threads, out)
    }
}
