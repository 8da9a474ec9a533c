use crate::names::{Name, Names};
use dd_front_jobs::{Pace, Shard};
use dd_model::{Frame, Request};
use dd_opword::OpWord;
use dd_template::Operation;

/// What a command does with the symbols of a file.
#[derive(Debug, Clone, Copy, PartialEq, Eq)]
pub enum FileKind {
    /// Least forms.
    Canon,
    /// Lines with positions.
    Lines,
    /// Facts about each symbol.
    Info,
    /// Minimal images.
    Minimal,
    /// Duals.
    Dual,
    /// Derived tilings.
    Derived(Operation),
    /// Oriented covers.
    Oriented,
    /// Covers by a torus.
    Torus,
    /// Numbers of sheets of covers by a torus.
    Sheets,
}

/// What the words ask for.
#[derive(Drop)]
pub enum Command {
    /// A catalogue.
    Catalogue {
        /// Which symbols are asked for.
        request: Request,
        /// By how many workers, and with how many jobs in a round, 1 to 4096.
        pace: Pace,
        /// The number of lines before a pause.
        pause: Option<u32>,
        /// The name under which the checkpoint is kept.
        checkpoint: Option<Name>,
    },
    /// A catalogue that is taken up again at a checkpoint.
    Resume {
        /// The checkpoint.
        name: Name,
        /// By how many workers, and with how many jobs in a round, 1 to 4096.
        pace: Pace,
        /// The number of lines before the next pause.
        pause: Option<u32>,
    },
    /// A shard of a catalogue.
    Shard {
        /// The shard.
        shard: Shard,
        /// Which symbols are asked for.
        request: Request,
        /// By how many workers, and with how many jobs in a round, 1 to 4096.
        pace: Pace,
        /// The number of lines before a pause.
        pause: Option<u32>,
        /// The name under which the checkpoint is kept.
        checkpoint: Option<Name>,
    },
    /// A shard that is resumed from its checkpoint.
    ResumeShard {
        /// The name of the checkpoint.
        name: Name,
        /// By how many workers, and with how many jobs in a round, 1 to 4096.
        pace: Pace,
        /// The number of lines before the next pause.
        pause: Option<u32>,
    },
    /// A drawing of the symbol of a file.
    Draw {
        /// The file.
        file: Name,
        /// The shape of the cell, and None for the one that the symmetries of the tiling keep.
        frame: Option<Frame>,
    },
    /// Symbols that are made by draws.
    Exercise {
        /// The number from which the draws are made.
        start: u32,
        /// How many symbols are made.
        count: u32,
    },
    /// The operations of a word, done to the symbols of a file.
    Apply {
        /// The operations.
        word: OpWord,
        /// The file.
        file: Name,
    },
    /// One list of the symbols of files that ascend.
    Merge {
        /// The files, 1 to 8.
        files: Names,
    },
    /// A command on the symbols of a file.
    File {
        /// What is done with them.
        kind: FileKind,
        /// The file.
        file: Name,
    },
}
