ghost use Rattle.std.specs.Prelude.{◌≡◌, ◌≤◌, ◌↔◌, IsTrue, false};

use crate::allowed::Allowed;

/// Which symbols are asked for.
#[derive(Clone, Copy)]
pub struct Request {
    /// The most chambers, 1 to 36.
    pub chambers: u32,
    /// The most classes of tiles, 1 to 36; 0 sets no limit.
    pub tiles: u32,
    /// The most classes of vertices, 1 to 36; 0 sets no limit.
    pub vertices: u32,
    /// The numbers of edges that tiles may have.
    pub faces: Allowed,
    /// The degrees that vertices may have.
    pub degrees: Allowed,
    /// True if only minimal symbols are asked for.
    pub minimal: bool,
}

impl Request {
    ghost use Rattle.dd_model.specs.Request.{IsValid};
    ghost use Rattle.dd_model.specs.Allowed.{IsFrom};

    /// Returns the request for all symbols of at most `chambers` chambers whose tiles and vertices
    /// have three edges or more.
    pub fn up_to(chambers: u32) -> Request
        requires { (1 ≤ chambers) × (chambers ≤ 36) }
        ensures valid { IsValid result }
        ensures chambers { result.chambers ≡ chambers }
        ensures limits { (result.tiles ≡ 0) × (result.vertices ≡ 0) }
        ensures sets { IsFrom 3 result.faces × IsFrom 3 result.degrees }
        ensures minimal { result.minimal ≡ false }
    {
        Request {
            chambers,
            tiles: 0,
            vertices: 0,
            faces: Allowed::least(3),
            degrees: Allowed::least(3),
            minimal: false,
        }
    }

    /// Returns whether each field is in its range.
    pub fn is_valid(&self) -> bool
        ensures { IsTrue result ↔ IsValid self.now }
    {
        self.chambers >= 1
            && self.chambers <= 36
            && self.tiles <= 36
            && self.vertices <= 36
            && self.faces.is_some()
            && self.degrees.is_some()
    }
}
