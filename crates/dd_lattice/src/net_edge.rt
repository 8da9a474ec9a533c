/// An edge of a net. It goes from a vertex to a vertex plus a shift.
#[derive(Clone, Copy)]
pub struct NetEdge {
    /// The number of the vertex from which it goes.
    pub from: u32,
    /// The number of the vertex to whose image by the shift it goes.
    pub to: u32,
    /// The first coordinate of the shift.
    pub x: i64,
    /// The second coordinate of the shift.
    pub y: i64,
}
