ghost use Rattle.std.specs.Prelude.{◌≡◌, ◌+◌, ◌≤◌};
ghost use Rattle.dd_board.specs.Shares.{HaveParts, HaveAmounts, AreAdded};

use std::sync::ledger::{Ledger, Share};

/// Shares of the five ledgers of a board: one for each kind of call.
#[derive(Drop)]
pub struct Shares<K: Ledger, L: Ledger, S: Ledger, D: Ledger, B: Ledger> {
    pub(crate) take: Share<K>,
    pub(crate) look: Share<L>,
    pub(crate) split: Share<S>,
    pub(crate) finish: Share<D>,
    pub(crate) back: Share<B>,
}

impl<K: Ledger, L: Ledger, S: Ledger, D: Ledger, B: Ledger> Shares<K, L, S, D, B> {
    /// One part of each, without an amount.
    pub(crate) fn one_of_each(&mut self) -> Shares<K, L, S, D, B>
        requires parts { (1 ≤ self.old.take.parts) × (1 ≤ self.old.look.parts)
            × (1 ≤ self.old.split.parts) × (1 ≤ self.old.finish.parts) × (1 ≤ self.old.back.parts) }
        requires amounts { HaveAmounts self.old 0 0 0 0 0 }
        ensures one { HaveParts result 1 }
        ensures none { HaveAmounts result 0 0 0 0 0 }
        ensures parts { AreAdded self.new result self.old }
    {
        Shares {
            take: self.take.split_off(1, 0),
            look: self.look.split_off(1, 0),
            split: self.split.split_off(1, 0),
            finish: self.finish.split_off(1, 0),
            back: self.back.split_off(1, 0),
        }
    }

    /// Other shares join these.
    pub(crate) fn merge(&mut self, other: Shares<K, L, S, D, B>)
        ensures { AreAdded self.old other self.new }
    {
        let Shares {
            take,
            look,
            split,
            finish,
            back,
        } = other;
        self.take.merge(take);
        self.look.merge(look);
        self.split.merge(split);
        self.finish.merge(finish);
        self.back.merge(back);
    }
}
