/// A step from a chamber to another of the same color.
#[derive(Clone, Copy)]
pub(crate) struct Step {
    /// Where it begins.
    pub from: u32,
    /// Where it leads.
    pub to: u32,
    /// True if it crosses the edge of both chambers. Else it goes round their tile.
    pub crosses: bool,
}
