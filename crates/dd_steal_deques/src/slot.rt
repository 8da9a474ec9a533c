use crate::known::Known;
use crossbeam_deque::protocol::{Join, Outcome, Protocol, Split};
use dd_front::{Naming, Ticket};

/// A ticket in a deque, with the number that its owner gave it.
#[derive(Drop)]
pub struct Slot<N: Naming> {
    pub number: u32,
    pub ticket: Ticket<N>,
}

/// The rule of every deque of a rack: each number that its owner gave stands once among the content
/// and what was taken.
pub struct Numbered;

impl<N: Naming> Protocol<Slot<N>, Known> for Numbered {
    ghost use Rattle.std.specs.Prelude.{true, false, [], map};
    ghost use Rattle.dd_steal_deques.specs.Numbers.{known, Holds};

    ghost holds = { λ items views. Holds (map (λ s. s.number) items) views };

    ghost first = { known true 0 0 true [] };

    ghost guest = { known false 0 0 false [] };
}

/// The owner gives a ticket the next number.
pub(crate) struct Pushed;

impl<N: Naming> Outcome<Slot<N>, Known> for Pushed {
    ghost use Rattle.std.specs.Prelude.{◌≡◌, ◌+◌};
    ghost use Rattle.dd_steal_deques.specs.Numbers.{known};

    ghost then = { λ v xs w. w ≡ known v.owns (v.count + 1) v.passes v.live v.taken };
}

/// The owner takes the first ticket.
pub(crate) struct Popped;

impl<N: Naming> Outcome<Slot<N>, Known> for Popped {
    ghost use Rattle.std.specs.Prelude.{map};
    ghost use Rattle.dd_steal_deques.specs.Numbers.{Pops, TookAll};

    ghost then = { λ v xs w. Pops v (map (λ s. s.number) xs) w };

    ghost empty = { TookAll };
}

/// A thief takes the first ticket. From an empty deque it learns nothing.
pub(crate) struct Stolen;

impl<N: Naming> Outcome<Slot<N>, Known> for Stolen {
    ghost use Rattle.std.specs.Prelude.{◌≡◌, map};
    ghost use Rattle.dd_steal_deques.specs.Numbers.{taking};

    ghost then = { λ v xs w. w ≡ taking v (map (λ s. s.number) xs) };
}

/// A pass is cut off from the owner's, or joined to it again.
pub(crate) struct Passes;

impl Split<Known> for Passes {
    ghost use Rattle.std.specs.Prelude.{◌+◌, true, false, []};
    ghost use Rattle.dd_steal_deques.specs.Numbers.{known};

    ghost left = { λ v. known true v.count (v.passes + 1) true v.taken };

    ghost right = { λ v. known false 0 0 true [] };
}

impl Join<Known> for Passes {
    ghost use Rattle.std.specs.Prelude.{◌-◌, ◌++◌, true, false, []};
    ghost use Rattle.dd_steal_deques.specs.Numbers.{known};

    ghost both = { λ v w. known true v.count (v.passes - 1) true (v.taken ++ w.taken) };

    ghost spent = { known false 0 0 false [] };
}
