ghost use Rattle.std.specs.Prelude.{◌≡◌, ◌++◌, IfOk, OnOk, string_bytes};
ghost use Rattle.dd_suite_commands.specs.Facts.{AreFactsOf, fraction_text, orientation_text, counts_text, head_text, tail_text};

use dd_cells::{Fraction, Orientation, count, curvature, orientation};
use dd_model::{Memory, Pair};
use dd_quotient::is_minimal;
use dd_symbol::Connected;
use std::alloc::{AllocError, Global};

/// What `info` writes about a symbol, besides its group.
#[derive(Clone, Copy, Debug, PartialEq, Eq)]
pub struct Facts {
    /// The number of its chambers.
    pub chambers: u32,
    /// The number of its classes of tiles.
    pub tiles: u32,
    /// The number of its classes of vertices.
    pub vertices: u32,
    /// The number of its classes of edges.
    pub edges: u32,
    /// Its curvature.
    pub curvature: Fraction,
    /// Its orientation.
    pub orientation: Orientation,
    /// True if it is minimal.
    pub minimal: bool,
}

impl Facts {
    /// The facts of a symbol.
    pub fn of(alloc: Global, s: &Connected) -> Result<Facts, Memory>
        ensures { IfOk result (λ facts. AreFactsOf s.now facts) }
    {
        Ok(Facts {
            chambers: s.symbol().size(),
            tiles: count(s, Pair::Tile),
            vertices: count(s, Pair::Vertex),
            edges: count(s, Pair::Edge),
            curvature: curvature(s),
            orientation: orientation(alloc, s)?,
            minimal: is_minimal(alloc, s)?,
        })
    }

    /// The line of number k as far as the name of the group.
    pub fn head(&self, alloc: Global, k: usize) -> Result<String, AllocError>
        ensures { IfOk result (λ text. string_bytes text ≡ head_text k self.now) }
    {
        let counts = self.counts(alloc, k)?;
        let curvature = fraction_message(alloc, self.curvature)?;
        let orientation = orientation_name(self.orientation);
        format!(in alloc; "{counts} curvature {curvature} orientation {orientation} group ")
    }

    /// The number of the line, and those of the chambers and cells.
    fn counts(&self, alloc: Global, k: usize) -> Result<String, AllocError>
        ensures { IfOk result (λ text. string_bytes text ≡ counts_text k self.now) }
    {
        format!(in alloc;
            "{k} chambers {} tiles {} vertices {} edges {}",
            self.chambers, self.tiles, self.vertices, self.edges
        )
    }

    /// What follows the name of the group.
    pub fn tail(&self) -> &'static str
        ensures { result.now ≡ tail_text self.now }
    {
        if self.minimal {
            " minimal yes\n"
        } else {
            " minimal no\n"
        }
    }
}

/// A fraction, and a whole number without its denominator.
fn fraction_message(alloc: Global, x: Fraction) -> Result<String, AllocError>
    ensures { IfOk result (λ text. string_bytes text ≡ fraction_text x) }
{
    if x.den == 1 {
        return format!(in alloc; "{}", x.num);
    }
    format!(in alloc; "{}/{}", x.num, x.den)
}

fn orientation_name(orientation: Orientation) -> &'static str
    ensures { result.now ≡ orientation_text orientation }
{
    match orientation {
        Orientation::Oriented => "oriented",
        Orientation::Weak => "weak",
        Orientation::None => "none",
    }
}
