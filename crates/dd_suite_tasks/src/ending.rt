ghost use Rattle.std.specs.Prelude.{◌≡◌};

use crate::status::Status;
use dd_check::ShardFault;
use dd_pages_and_checkpoints::{Finish, RunFault};
use dd_suite_commands::{CommandFault, MergeRefusal, SymbolRefusal};
use dd_text::FileFault;

/// How a command ended, with all that its line on the error stream says.
#[derive(Clone, Copy, Debug, PartialEq, Eq)]
pub enum Ending {
    /// The whole output was written.
    Done,
    /// The words are not taken.
    Usage,
    /// The file is refused.
    Refused(FileFault),
    /// Nothing is made of a symbol of the file.
    RefusedSymbol(SymbolRefusal),
    /// The text to resume from is no checkpoint text of its kind.
    RefusedCheck(ShardFault),
    /// The files are not merged.
    RefusedMerge(MergeRefusal),
    /// The lines before a pause were written, and there are more. It has the number of the last
    /// one.
    Paused(u64),
    /// A call of the store failed.
    StoreFault,
    /// A write on the output failed.
    SinkFault,
    /// Out of memory.
    Memory,
    /// The catalogue has a line of a number that is too large.
    TooManyLines,
}

impl Ending {
    ghost use Rattle.dd_suite_tasks.specs.Endings.{status_of, fault_ending, run_ending};

    /// How a command ends that has no text for a file.
    pub fn of_fault(fault: CommandFault) -> Ending
        ensures { result ≡ fault_ending fault }
    {
        match fault {
            CommandFault::File(fault) => Ending::Refused(fault),
            CommandFault::Symbol(refusal) => Ending::RefusedSymbol(refusal),
            CommandFault::Memory => Ending::Memory,
        }
    }

    /// How a run ends whose pause comes after the line of a number.
    pub fn of_run(ended: Result<Finish, RunFault>, last: u64) -> Ending
        ensures { result ≡ run_ending ended last }
    {
        match ended {
            Ok(Finish::Whole) => Ending::Done,
            Ok(Finish::Paused) => Ending::Paused(last),
            Ok(Finish::CutShort) => Ending::TooManyLines,
            Err(RunFault::Store) => Ending::StoreFault,
            Err(RunFault::Sink) => Ending::SinkFault,
            Err(RunFault::Memory) => Ending::Memory,
        }
    }

    /// The status without its cause.
    pub fn status(self) -> Status
        ensures { result ≡ status_of self }
    {
        match self {
            Ending::Done => Status::Done,
            Ending::Usage => Status::Usage,
            Ending::Refused(_)
            | Ending::RefusedSymbol(_)
            | Ending::RefusedCheck(_)
            | Ending::RefusedMerge(_) => Status::Refused,
            Ending::Paused(_) => Status::Paused,
            Ending::StoreFault => Status::StoreFault,
            Ending::SinkFault => Status::SinkFault,
            Ending::Memory => Status::Memory,
            Ending::TooManyLines => Status::TooManyLines,
        }
    }
}
