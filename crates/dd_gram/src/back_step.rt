/// A step along an edge without a shift, as it is gone back.
#[derive(Clone, Copy)]
pub(crate) struct BackStep {
    /// The chamber that passes the edge back.
    pub back: u32,
    /// The number of the vertex from which the step goes.
    pub from: u32,
    /// The number of the vertex to which it goes.
    pub to: u32,
}
