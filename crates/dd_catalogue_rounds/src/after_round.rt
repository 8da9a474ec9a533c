use dd_pages_and_checkpoints::Finish;

/// What follows a round.
pub(crate) enum AfterRound {
    /// The next round. The name has the checkpoint of where the front stands, if the value is true.
    Next(bool),
    /// The end of the run.
    Ended(Finish),
}
