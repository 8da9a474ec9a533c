use crate::side::Side;

/// A side by which a new cell is joined to those before it.
#[derive(Clone, Copy)]
pub(crate) struct Join {
    pub side: Side,
    /// True if the new cell is that at the first end.
    pub out: bool,
}
