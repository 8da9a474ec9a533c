use dd_model::Index;

/// A side, given by the least of its chambers, and the numbers of the cells at its ends.
#[derive(Clone, Copy)]
pub(crate) struct Side {
    pub chamber: u32,
    pub index: Index,
    pub from: u32,
    pub to: u32,
}
