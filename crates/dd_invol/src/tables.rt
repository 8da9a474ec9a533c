ghost use Rattle.std.specs.Prelude.{◌≡◌, ◌*◌, ◌≤◌, [], length};
ghost use Rattle.std.specs.Bool.{OnTrue, OnFalse};
ghost use Rattle.dd_front_jobs.specs.Under.{HasNothingUnder};

use dd_branch_tables::{ChamberSet, FirstVisits, PrefixSearch, Stem, is_least};
use dd_model::Request;
use std::marker::Model;

/// A search for tables of one size, of which nothing but leastness is asked: a stem that grows and
/// is shortened, and the room for its traversals.
#[derive(Drop)]
pub struct Tables {
    request: Request,
    stem: Stem,
    visit: FirstVisits,
}

impl Model for Tables {
    ghost use Rattle.dd_invol.specs.Growth.{Growing};

    ghost Value = { Growing };

    ghost view = { λ a. record { request = a.request; stem = a.stem } };
}

impl Tables {
    ghost use Rattle.dd_branch_tables.specs.Rows.{depth_of};
    ghost use Rattle.dd_branch_tables.specs.Stem.{Any, IsStem, prefix_of, size_of};
    ghost use Rattle.dd_branch_tables.specs.Table.{HasLeastTable};
    ghost use Rattle.dd_invol.specs.Growth.{asked_of, size_at, prefix_at, taken_back};

    /// The search from the empty prefix.
    pub fn new(request: &Request, size: u8) -> Tables
        requires { (1 ≤ size) × (size ≤ 36) }
        ensures request { result.request ≡ request.now }
        ensures stem { IsStem result.stem }
        ensures size { size_of result.stem ≡ size }
        ensures empty { prefix_of result.stem ≡ [] }
    {
        Tables {
            request: *request,
            stem: Stem::new(size),
            visit: FirstVisits::new(),
        }
    }

    /// The search from a stem on, with the room for its traversals.
    pub(crate) fn from_stem(request: &Request, stem: Stem, visit: FirstVisits) -> Tables
        ensures request { result.request ≡ request.now }
        ensures stem { result.stem ≡ stem }
    {
        Tables {
            request: *request,
            stem,
            visit,
        }
    }

    /// What is asked for.
    pub(crate) fn request(&self) -> &Request
        ensures { result.now ≡ self.now.request }
    {
        &self.request
    }

    /// The number of chambers.
    pub(crate) fn size(&self) -> u8
        ensures { result ≡ size_of self.now.stem }
    {
        self.stem.size()
    }

    /// The numbers of the prefix.
    pub(crate) fn prefix(&self) -> &[u8]
        ensures { result.now ≡ prefix_of self.now.stem }
    {
        self.stem.prefix()
    }

    /// Returns whether the images, which are all known, are those of a least table.
    pub(crate) fn is_least(&mut self) -> bool
        requires stem { IsStem self.old.stem }
        requires whole { length (prefix_of self.old.stem) ≡ 3 * size_of self.old.stem }
        ensures same { self.new ≡ self.old }
        ensures least { OnTrue result
            (HasLeastTable (size_of self.old.stem) (prefix_of self.old.stem)) }
        ensures none { OnFalse result
            (HasNothingUnder Any (size_of self.old.stem) (prefix_of self.old.stem)) }
    {
        is_least(&self.stem, &mut self.visit)
    }
}

impl PrefixSearch for Tables {
    ghost use Rattle.std.proofs.Common.{rules};
    ghost use Rattle.dd_invol.specs.Growth.{table_laws};

    ghost laws = { table_laws };

    ghost end_small = { Prim.search rules };

    fn is_whole(&self) -> bool {
        self.stem.is_whole()
    }

    fn mark(&self) -> usize {
        self.stem.mark()
    }

    fn candidates(&self) -> ChamberSet {
        self.stem.candidates()
    }

    fn enter(&mut self, number: u8) -> bool {
        self.stem.enter(number, &mut self.visit)
    }

    fn leave(&mut self, mark: usize) {
        self.stem.leave(mark);
    }
}
