ghost use Rattle.std.specs.Prelude.{◌≡◌, ◌≤◌};
ghost use Rattle.dd_model.specs.declared.pair.Pair.TheVariants.{Tile, Vertex};

use crate::class_shares::ClassShares;
use dd_model::{Pair, Request};

/// The shares that a request allows to the chambers of the tile paths and the vertex paths of
/// tables of a size.
#[derive(Clone, Copy, Drop)]
pub struct PathShares {
    pub(crate) request: Request,
    pub(crate) size: u8,
    pub(crate) tiles: ClassShares,
    pub(crate) vertices: ClassShares,
    ghost tiles_asked: { tiles.request ≡ request },
    ghost tiles_pair: { tiles.pair ≡ Tile },
    ghost tiles_sized: { tiles.size ≡ size },
    ghost vertices_asked: { vertices.request ≡ request },
    ghost vertices_pair: { vertices.pair ≡ Vertex },
    ghost vertices_sized: { vertices.size ≡ size },
}

impl PathShares {
    /// Returns the sums for a request.
    pub fn of(request: &Request, size: u8) -> PathShares
        requires { size ≤ 36 }
        ensures request { result.request ≡ request.now }
        ensures size { result.size ≡ size }
    {
        PathShares {
            request: *request,
            size,
            tiles: ClassShares::of(request, Pair::Tile, size),
            vertices: ClassShares::of(request, Pair::Vertex, size),
        }
    }

    /// Returns the sums for tables of another size. Few are computed anew.
    pub fn for_size(&self, size: u8) -> PathShares
        requires { size ≤ 36 }
        ensures request { result.request ≡ self.now.request }
        ensures size { result.size ≡ size }
    {
        PathShares {
            request: self.request,
            size,
            tiles: self.tiles.for_size(size),
            vertices: self.vertices.for_size(size),
        }
    }
}
