ghost use Rattle.dd_gram.specs.Form.{IsGramOfSome};
ghost use Rattle.dd_gram.specs.Frames.{IsOwnFrame};

use crate::forms::Gram;
use dd_model::Frame;

/// Returns the cell that has the shape of a form, with the first side 1000 long. Its numbers are
/// rounded down.
pub fn own_frame(g: &Gram) -> Frame
    requires { IsGramOfSome g.now }
    ensures { IsOwnFrame g.now result }
{
    let p = (1000 * g.b).div_euclid(g.a);
    let root = (1_000_000 * (g.a * g.c - g.b * g.b)).isqrt();
    let q = root.div_euclid(g.a);
    Frame::Own {
        p: p as i64,
        q: q as i64,
    }
}
