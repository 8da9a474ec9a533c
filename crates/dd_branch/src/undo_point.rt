use dd_branch_bounds::TablePaths;

/// A level of a search, to which it can go back: the paths of the table there, and how much there
/// was before the next number was put in. That is counted in numbers of the prefix, images in the
/// table, and moves of starts.
#[derive(Clone, Copy, Drop)]
pub(crate) struct UndoPoint {
    pub(crate) numbers: usize,
    pub(crate) rows: usize,
    pub(crate) sides: TablePaths,
    pub(crate) starts: usize,
}
