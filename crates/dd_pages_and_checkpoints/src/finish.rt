/// How the writing of a catalogue came to an end of its own.
#[derive(Clone, Copy, Debug, PartialEq, Eq)]
pub enum Finish {
    /// All lines were written.
    Whole,
    /// As many lines were written as were to be written before a pause, and there are more.
    Paused,
    /// There are lines whose numbers are too large; those before them were written.
    CutShort,
}
