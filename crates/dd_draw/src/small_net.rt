ghost use Rattle.std.specs.Prelude.{◌≤◌};

use dd_lattice::Net;

/// A net of at most 96 vertices.
#[derive(Drop)]
pub(crate) struct SmallNet<'a> {
    /// The net.
    pub(crate) net: &'a Net,
    ghost few: { net.now.vertices ≤ 96 },
}
