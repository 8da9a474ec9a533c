use crate::chamber_set::ChamberSet;

/// A prefix at which a search still has something to try.
#[derive(Clone, Copy, Default, Drop)]
pub struct Level {
    /// How much had been put in when the search stood there.
    pub mark: usize,
    /// The numbers that are still to be tried after the prefix.
    pub left: ChamberSet,
}
