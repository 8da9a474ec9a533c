ghost use Rattle.std.specs.Prelude.{◌≡◌, ◌≤◌, ◌<◌, ◌+◌, ◌*◌, ℕ, nat_abs, pos, ◌<ℤ◌, ◌*ℤ◌, IfOk};
ghost use Rattle.dd_covers.specs.Torus.{IsTorus};
ghost use Rattle.dd_lattice.specs.NetOf.{IsNet};
ghost use Rattle.dd_gram.specs.Form.{IsGram, IsGramOfSome};
ghost use Rattle.dd_gram.specs.Loops.{IsSmallMatrix};

use crate::basis::Basis;
use crate::forms::{Gram, Matrix};
use dd_canon::Symmetries;
use dd_lattice::Net;
use dd_model::Memory;
use dd_symbol::Connected;
use std::alloc::Global;

impl Gram {
    ghost use Rattle.dd_gram.specs.Form.{IsSmallForm, square, plus};
    ghost use Rattle.dd_gram.specs.Loops.{IsSmallMatrix};

    /// The transposed matrix times the matrix.
    fn of_matrix(m: Matrix) -> Gram
        requires { IsSmallMatrix m }
        ensures { result ≡ square m }
    {
        let (xx, xy) = (i128::from(m.xx), i128::from(m.xy));
        let (yx, yy) = (i128::from(m.yx), i128::from(m.yy));
        Gram {
            a: xx * xx + yx * yx,
            b: xx * xy + yx * yy,
            c: xy * xy + yy * yy,
        }
    }

    /// The sum of two forms.
    fn plus(self, other: Gram) -> Gram
        requires own { IsSmallForm self }
        requires other { IsSmallForm other }
        ensures { result ≡ plus self other }
    {
        Gram {
            a: self.a + other.a,
            b: self.b + other.b,
            c: self.c + other.c,
        }
    }
}

/// Returns the form of a torus: the sum, over its symmetries, of the transposed matrix times the
/// matrix. It takes each symmetry once.
pub fn gram(alloc: Global, t: &Connected, net: &Net) -> Result<Gram, Memory>
    requires torus { IsTorus t.now }
    requires net { IsNet t.now net.now }
    ensures gram { IfOk result (λ g. IsGram t.now g) }
    ensures some { IfOk result IsGramOfSome }
    ensures positive { IfOk result (λ g. pos 0 <ℤ g.a) }
    ensures definite { IfOk result (λ g. (g.b *ℤ g.b) <ℤ (g.a *ℤ g.c)) }
{
    let basis = Basis::new(alloc, t, net)?;
    let mut symmetries = Symmetries::new(alloc, t)?;
    let mut sum = Gram { a: 0, b: 0, c: 0 };
    for k in 0..t.symbol().size() {
        if let Some(map) = symmetries.carry(alloc, t, k + 1)? {
            sum = Gram::of_matrix(basis.matrix(&map)).plus(sum);
        }
    }
    Ok(sum)
}
