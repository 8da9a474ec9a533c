use dd_suite_tasks::Status;

/// What comes after a run of a chain.
#[derive(Clone, Copy)]
pub(crate) enum AfterRun {
    /// Nothing: the last run ended so.
    Last(Status),
    /// A run that resumes from the name.
    Next,
}
