ghost use Rattle.std.specs.Prelude.{◌≡◌, ◌+◌, ◌%◌, ◌*◌, ◌≤◌, ◌<◌, IsTrue};
ghost use Rattle.dd_model.specs.declared.pair.Pair.TheVariants.{Edge};
ghost use Rattle.dd_branch_bounds.specs.Units.{share_unit};
ghost use Rattle.dd_branch_bounds.specs.Classes.{share_in, turns_of};
ghost use Rattle.dd_branch_bounds.specs.Classes.{IsClassShare, IsClassWeight, AreClassWeights};
ghost use Rattle.dd_branch_bounds.specs.Classes.{IsWeightOf, IsWholeShare};
ghost use Rattle.dd_branch_bounds.specs.Classes.{IsClosedShare, IsCappedShare, IsJoinedShare};

use crate::degrees::{least_degree, share_of, share_of_cell};
use crate::path_class::PathClass;
use dd_model::{Pair, Request};

/// The sums of shares of the chambers of paths, for one pair and one size of tables, by class of
/// paths.
///
/// For each class of paths with ends, the sum is the number of chambers times the share of a
/// degree. That degree is the least that a request allows and for which a cell with these chambers
/// has room. After the classes with ends come the numbers of turns: the sum of the chambers of a
/// whole cell with these turns, which is 0 if the request allows the cell no degree.
///
/// The sum of two paths that are joined is at the sum of their classes, also if the path that they
/// make has no ends.
///
/// In a table of 8 chambers, a cell with the 5 chambers of the class 5 has at least 3 turns, and at
/// least 5 turns with those of the class 69. Paths of the classes 67 and 66 make a whole cell of 5
/// turns if their ends are joined: its sum is at 67 + 66, which is 128 and these turns.
#[derive(Clone, Copy, Drop)]
pub(crate) struct ClassShares {
    pub(crate) request: Request,
    pub(crate) pair: Pair,
    pub(crate) size: u8,
    weights: [u64; 192],
    ghost cells: { ¬ (pair ≡ Edge) },
    ghost few: { size ≤ 36 },
    ghost are_told: { AreClassWeights request pair size weights },
}

/// How many turns a cell with the chambers of a path of a class has at least, in tables of a size.
fn least_turns(size: u8, class: u8) -> u32
    requires { class < 128 }
    ensures { result ≡ turns_of size class }
{
    let chambers = u32::from(class % 64);
    if class >= 64 || class == size && size % 2 == 1 {
        return chambers;
    }
    (chambers + 1) / 2
}

/// The share of the chambers of a path of a class, or of a whole cell.
fn share_of_class(request: &Request, pair: Pair, size: u8, class: u8) -> u64
    requires { class < 192 }
    ensures { IsClassShare request.now pair size class result }
{
    if class >= 128 {
        return share_of_cell(request, pair, (class - 128).clamp(1, 36));
    }
    let turns = least_turns(size, class);
    share_of(least_degree(request, pair, turns.clamp(1, 36)))
}

/// What the chambers of a path of a class, or as many of a whole cell as it has turns, have
/// together.
fn weight_of_class(request: &Request, pair: Pair, size: u8, class: u8) -> u64
    requires { class < 192 }
    ensures { IsClassWeight request.now pair size class result }
{
    u64::from(class % 64) * share_of_class(request, pair, size, class)
}

impl ClassShares {
    /// Returns the weights of a pair for the degrees that a request allows in tables of a size.
    pub(crate) fn of(request: &Request, pair: Pair, size: u8) -> ClassShares
        requires cells { ¬ (pair ≡ Edge) }
        requires size { size ≤ 36 }
        ensures request { result.request ≡ request.now }
        ensures pair { result.pair ≡ pair }
        ensures size { result.size ≡ size }
    {
        let mut weights = [0; 192];
        for class in 0..192u8 {
            weights[usize::from(class)] = weight_of_class(request, pair, size, class);
        }
        ClassShares {
            request: *request,
            pair,
            size,
            weights,
        }
    }

    /// Returns the sums of tables of another size. Only paths with all chambers of a table of
    /// either size may have other sums than before.
    pub(crate) fn for_size(&self, size: u8) -> ClassShares
        requires { size ≤ 36 }
        ensures request { result.request ≡ self.now.request }
        ensures pair { result.pair ≡ self.now.pair }
        ensures size { result.size ≡ size }
    {
        let mut weights = self.weights;
        let before = self.size;
        weights[usize::from(before)] = weight_of_class(&self.request, self.pair, size, before);
        weights[usize::from(size)] = weight_of_class(&self.request, self.pair, size, size);
        ClassShares {
            request: self.request,
            pair: self.pair,
            size,
            weights,
        }
    }

    /// What the chambers of a path with ends have together.
    pub(crate) fn weight(&self, class: PathClass) -> u64
        ensures told { result ≡ class.number % 64 * share_in self.now.weights class.number }
        ensures small { result ≤ 64 * share_unit }
    {
        self.weights[class.place()]
    }

    /// What the chambers of a path without ends have together: it is a whole cell.
    pub(crate) fn closed(&self, class: PathClass) -> u64
        ensures told { IsWeightOf (IsClosedShare self.now.request self.now.pair class.number)
            (class.number % 64) result }
        ensures small { result ≤ 64 * share_unit }
    {
        let place = class.place();
        if place >= 64 {
            return self.weights[place + 64];
        }
        if place % 2 == 1 {
            return 0;
        }
        2 * self.weights[128 + place / 2]
    }

    /// What the chambers of a path of the class have after an involution has fixed its end.
    pub(crate) fn capped(&self, class: PathClass) -> u64
        ensures told { IsWeightOf
            (IsCappedShare self.now.request self.now.pair self.now.weights class.number)
            (class.number % 64) result }
        ensures small { result ≤ 64 * share_unit }
    {
        self.weights[class.place() + 64]
    }

    /// What the chambers of two paths have after an involution has joined their ends.
    pub(crate) fn joined(&self, one: PathClass, other: PathClass) -> u64
        requires few { one.number % 64 + other.number % 64 < 64 }
        ensures told { IsWeightOf
            (IsJoinedShare self.now.request self.now.pair self.now.weights one.number other.number)
            (one.number % 64 + other.number % 64) result }
        ensures small { result ≤ 64 * share_unit }
    {
        self.weights[one.place() + other.place()]
    }
}
