use dd_front::Front;
use dd_pages_and_checkpoints::Page;

/// Where a run that writes lines stands.
#[derive(Drop)]
pub(crate) struct Output {
    /// The jobs on their way, and the members that are not emitted yet.
    pub front: Front,
    /// The lines on their way.
    pub page: Page,
    /// True if the name of the run has the checkpoint of where the front stands.
    pub is_kept: bool,
}
