ghost use Rattle.std.specs.Prelude.{◌≡◌, if◌then◌else◌};

use crate::finish::Finish;

/// The number of the last line that is written.
pub const MOST_LINES: u64 = 1_000_000_000_000_000_000;

/// How far the lines of a run may go.
#[derive(Clone, Copy)]
pub struct Limit {
    /// The number of the last line.
    pub last: u64,
    /// True if the run is to pause after it.
    pub pauses: bool,
}

impl Limit {
    /// How a run ends that has more lines.
    pub fn finish(self) -> Finish
        ensures { result ≡ (if self.pauses then Finish.Paused else Finish.CutShort) }
    {
        if self.pauses {
            Finish::Paused
        } else {
            Finish::CutShort
        }
    }
}
