use dd_check::ResumeKind;
use dd_front_jobs::{Pace, Portion};
use dd_suite_commands::FileCommand;
use dd_words::{Name, Names};

/// What the program does.
#[derive(Drop)]
pub enum Task {
    /// A catalogue or a shard, and how it is worked at.
    Alone(Portion, Pace),
    /// A catalogue or a shard by a run that keeps its checkpoint under a name, and after how many
    /// lines it is to pause.
    Kept {
        portion: Portion,
        name: Name,
        pace: Pace,
        pause: Option<u32>,
    },
    /// Resuming from the checkpoint of a name, of a catalogue or of a shard, in the same way.
    Resume {
        kind: ResumeKind,
        name: Name,
        pace: Pace,
        pause: Option<u32>,
    },
    /// A command on the file of a name.
    OnFile(FileCommand, Name),
    /// The symbols of the files of some names, in one list.
    Merge(Names),
    /// An exercise of `count` items from a number on.
    Exercise {
        start: u32,
        count: u32,
    },
}
