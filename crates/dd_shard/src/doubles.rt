ghost use Rattle.std.specs.Prelude.{◌≡◌, ◌↔◌, IsTrue, MatchOption, length};
ghost use Rattle.std.specs.declared.cmp.Ordering.TheVariants.{Equal};
ghost use Rattle.dd_model.specs.Code.{code_cmp};
ghost use Rattle.dd_shard.specs.Doubles.{AreApartBelow, IsLeastDouble, IsEarliest, IsPlaceOf};
ghost use Rattle.dd_shard.specs.Doubles.{IsNotAfter};

use crate::member::{ListPlace, Member};
use dd_symbol::cmp_code;

/// Returns the least place of a member that has the symbol of the member before it.
pub(crate) fn least_double(members: &[Member]) -> Option<ListPlace>
    ensures { MatchOption result
        (AreApartBelow members.now (length members.now))
        (IsLeastDouble members.now (length members.now)) }
{
    let mut least = None;
    for k in 1..members.len() {
        if are_equal(&members[k - 1], &members[k]) {
            least = Some(earliest(least, members[k].place()));
        }
    }
    least
}

/// Returns whether two members have one symbol.
fn are_equal(a: &Member, b: &Member) -> bool
    ensures equal { IsTrue result ↔ (code_cmp a.now.symbol b.now.symbol ≡ Equal) }
    ensures same { IsTrue result → a.now.symbol ≡ b.now.symbol }
{
    cmp_code(a.symbol.symbol(), b.symbol.symbol()).is_eq()
}

/// Returns the earlier of a place and of one that there may be.
fn earliest(least: Option<ListPlace>, place: ListPlace) -> ListPlace
    ensures { IsEarliest least place result }
{
    match least {
        Some(other) if other.is_not_after(place) => other,
        _ => place,
    }
}

impl Member {
    /// Returns where the symbol was.
    fn place(&self) -> ListPlace
        ensures { IsPlaceOf self.now result }
    {
        ListPlace {
            file: self.file,
            number: self.number,
        }
    }
}

impl ListPlace {
    /// Returns whether the place is not after another. Lists count before symbols.
    fn is_not_after(self, other: ListPlace) -> bool
        ensures { IsTrue result ↔ IsNotAfter self other }
    {
        self.file < other.file || self.file == other.file && self.number <= other.number
    }
}
