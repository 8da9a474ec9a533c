use dd_suite_tasks::Status;

/// What the runs of a chain came to.
#[derive(Drop)]
pub struct Drive {
    /// How the last run ended.
    pub status: Status,
    /// How many runs there were.
    pub runs: u32,
    /// What they wrote together.
    pub joined: Vec<u8>,
}
