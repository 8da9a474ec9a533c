ghost use Rattle.std.specs.Prelude.{◌≡◌, ◌+◌, ◌^◌, ◌≤◌, ◌++◌, [], OnOk, OnErr, true, length};
ghost use Rattle.dd_ports.specs.declared.sink.SinkFault.TheVariants.{Failed};
ghost use Rattle.dd_ports.specs.Causes.{HasCause};
ghost use Rattle.dd_ports.specs.States.{SinkStaysSure};
ghost use Rattle.dd_pages_and_checkpoints.specs.Texts.{joined};

use crate::tuning::FULL;
use dd_model::Memory;
use dd_ports::{Sink, SinkFault, write_all_of};

/// Lines that are collected to be written at once, and how many bytes were written before them.
#[derive(Drop)]
pub struct Collected {
    pub(crate) lines: Vec<u8>,
    pub written: u128,
    ghost few: { written + length lines.items ≤ 2 ^ 127 },
}

/// Puts a text behind what is collected. If nothing is collected, the text is taken as it is and
/// not copied.
fn put_behind(collected: &mut Vec<u8>, text: Vec<u8>) -> Result<(), Memory>
    ensures text { OnOk result (collected.new.items ≡ collected.old.items ++ text.items) }
    ensures same { OnErr result (collected.new.items ≡ collected.old.items) }
{
    if collected.is_empty() {
        *collected = text;
        return Ok(());
    }
    collected.extend_from_slice(&text)?;
    Ok(())
}

impl Collected {
    ghost use Rattle.dd_pages_and_checkpoints.specs.Sent.{HasRoomFor, IsSent, IsSentInPart};

    /// Writes the lines that are collected.
    pub(crate) fn write<O: Sink>(&mut self, out: &mut O) -> Result<(), SinkFault>
        ensures sent { OnOk result (IsSent (O.held out.old) (O.held out.new)
            self.old.lines.items self.old.written self.new) }
        ensures empty { OnOk result (self.new.lines.items ≡ []) }
        ensures part { IsSentInPart (O.held out.old) (O.held out.new)
            self.old.lines.items self.old.written self.new }
        ensures cause { HasCause Failed (O.faults out.old) (O.faults out.new) result }
        ensures sure { SinkStaysSure O.Sink Failed out.old out.new result }
    {
        write_all_of(out, &self.lines)?;
        let written = self.written + self.lines.len() as u128;
        self.lines.clear();
        self.written = written;
        Ok(())
    }

    /// Writes what is collected if that is enough.
    pub(crate) fn write_if_full<O: Sink>(&mut self, out: &mut O) -> Result<(), SinkFault>
        ensures sent { OnOk result (IsSent (O.held out.old) (O.held out.new)
            self.old.lines.items self.old.written self.new) }
        ensures part { IsSentInPart (O.held out.old) (O.held out.new)
            self.old.lines.items self.old.written self.new }
        ensures cause { HasCause Failed (O.faults out.old) (O.faults out.new) result }
        ensures sure { SinkStaysSure O.Sink Failed out.old out.new result }
    {
        if self.lines.len() < FULL {
            return Ok(());
        }
        self.write(out)
    }

    /// Puts texts behind what is collected, one after the other, and writes each time that is
    /// enough.
    pub(crate) fn put_all<O: Sink>(
        &mut self,
        texts: Vec<Vec<u8>>,
        out: &mut O,
    ) -> Result<(), SinkFault>
        requires { HasRoomFor self.old (joined texts.items) }
        ensures sent { OnOk result (IsSent (O.held out.old) (O.held out.new)
            (self.old.lines.items ++ joined texts.items) self.old.written self.new) }
        ensures part { IsSentInPart (O.held out.old) (O.held out.new)
            (self.old.lines.items ++ joined texts.items) self.old.written self.new }
        ensures cause { HasCause Failed (O.faults out.old) (O.faults out.new) result }
        ensures sure { SinkStaysSure O.Sink Failed out.old out.new result }
    {
        for text in texts {
            let Ok(()) = put_behind(&mut self.lines, text) else {
                return Err(SinkFault::Memory);
            };
            self.write_if_full(out)?;
        }
        Ok(())
    }
}
