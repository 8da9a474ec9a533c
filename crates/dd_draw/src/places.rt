use crate::point::Point;

/// The places of the vertices of a net, in their order.
#[derive(Drop)]
pub struct Places {
    /// The point of each vertex.
    pub points: Vec<Point>,
}
