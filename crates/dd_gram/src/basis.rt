ghost use Rattle.std.specs.Prelude.{◌≡◌, ◌≤◌, ℕ, nat_abs, length, IfOk};
ghost use Rattle.std.specs.List.{Contains};
ghost use Rattle.dd_gram.specs.Shifts.{number_at, HasSmallImage};
ghost use Rattle.dd_gram.specs.Walks.{sum_along, image_walk};
ghost use Rattle.dd_model.specs.Small.{most_chambers};

use crate::edge_numbers::EdgeNumbers;
use crate::forms::Matrix;
use crate::loops::{closed_walk, edge_with};
use crate::torus::Torus;
use dd_lattice::Net;
use dd_model::{Map, Memory, Pair};
use dd_symbol::Connected;
use std::alloc::Global;

/// The sum of a number of chambers over the image of a walk.
fn sum_of_images(numbers: &[i64], map: &Map, walk: &[u32]) -> i64
    requires each { (d : ℕ) → Contains walk.now d → HasSmallImage numbers.now map.now d }
    requires few { length walk.now ≤ most_chambers }
    ensures sum { result ≡ sum_along (number_at numbers.now) (image_walk map.now walk.now) }
    ensures small { nat_abs result ≤ length walk.now }
{
    let mut sum = 0i64;
    for k in 0..walk.len() {
        sum += numbers[map.image(walk[k]) as usize - 1];
    }
    sum
}

/// Two closed walks that span the shifts of all closed walks.
#[derive(Drop)]
pub(crate) struct Basis {
    /// The shifts of the edges.
    numbers: EdgeNumbers,
    /// A closed walk with the total shift (1, 0).
    first: Vec<u32>,
    /// A closed walk with the total shift (0, 1).
    second: Vec<u32>,
}

impl Basis {
    ghost use Rattle.dd_model.specs.Symbol.{Symbol};
    ghost use Rattle.dd_model.specs.Isomorphic.{IsIsomorphism};
    ghost use Rattle.dd_covers.specs.Torus.{IsTorus};
    ghost use Rattle.dd_lattice.specs.NetOf.{IsNet};
    ghost use Rattle.dd_lattice.specs.declared.net.Net.{Net};
    ghost use Rattle.dd_gram.specs.Action.{IsAction};
    ghost use Rattle.dd_gram.specs.Loops.{IsBasis, ServesFor, IsSmallMatrix};

    /// Finds the two walks along the edges of a net.
    pub(crate) fn new(alloc: Global, t: &Connected, net: &Net) -> Result<Basis, Memory>
        requires torus { IsTorus t.now }
        requires net { IsNet t.now net.now }
        ensures { IfOk result (λ basis. IsBasis t.now net.now basis) }
    {
        let one = edge_with(net.edges.as_slice(), 1, 0);
        let two = edge_with(net.edges.as_slice(), 0, 1);
        let edges = t.symbol().least_chambers(alloc, Pair::Edge)?;
        let torus = Torus {
            symbol: t,
            net,
            edges,
        };
        Ok(Basis {
            numbers: EdgeNumbers::new(alloc, &torus)?,
            first: closed_walk(alloc, &torus, one)?,
            second: closed_walk(alloc, &torus, two)?,
        })
    }

    /// The matrix of a symmetry: its columns are the total shifts of the images of the two walks.
    pub(crate) fn matrix(&self, map: &Map) -> Matrix
        requires some { ServesFor self.now map.now }
        ensures action { (t : Symbol) (net : Net) → IsTorus t → IsNet t net
            → IsBasis t net self.now → IsIsomorphism t t map.now → IsAction t map.now result }
        ensures small { IsSmallMatrix result }
    {
        let EdgeNumbers { x, y } = &self.numbers;
        Matrix {
            xx: sum_of_images(x, map, &self.first),
            xy: sum_of_images(x, map, &self.second),
            yx: sum_of_images(y, map, &self.first),
            yy: sum_of_images(y, map, &self.second),
        }
    }
}
