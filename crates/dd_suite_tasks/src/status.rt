ghost use Rattle.std.specs.Prelude.{◌≡◌};

/// How a call of the program ended.
#[derive(Clone, Copy, Debug, PartialEq, Eq)]
pub enum Status {
    /// The whole output was written.
    Done,
    /// The words are not taken.
    Usage,
    /// The file is refused, or a symbol of it, or what is to be resumed is no checkpoint text.
    Refused,
    /// As many lines were written as were to be written before a pause, and there are more.
    Paused,
    /// A call of the store failed.
    StoreFault,
    /// A write on the output failed.
    SinkFault,
    /// Out of memory.
    Memory,
    /// The output has a line of a number that is too large.
    TooManyLines,
}

impl Status {
    ghost use Rattle.dd_suite_tasks.specs.Status.{number_of};

    /// The exit status of the program.
    pub fn number(self) -> u8
        ensures { result ≡ number_of self }
    {
        match self {
            Status::Done => 0,
            Status::Refused => 1,
            Status::Usage => 2,
            Status::Paused => 3,
            Status::StoreFault => 4,
            Status::SinkFault => 5,
            Status::Memory => 6,
            Status::TooManyLines => 7,
        }
    }
}
