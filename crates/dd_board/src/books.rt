ghost use Rattle.std.specs.Prelude.{◌≡◌};
ghost use Rattle.dd_board.specs.Blanks.{AreInParts, AreLedgers};
ghost use Rattle.dd_board.specs.Shares.{HaveAmounts};

use crate::shares::Shares;
use std::sync::ledger::{Blank, Book, Ledger};

/// New ledgers of a board, one for each kind of call. No type names them yet.
pub struct Blanks {
    pub take: Blank,
    pub look: Blank,
    pub split: Blank,
    pub finish: Blank,
    pub back: Blank,
}

impl Blanks {
    /// Returns new ledgers of `parts` parts each.
    pub fn new(parts: u64) -> Blanks
        ensures { AreInParts result parts }
    {
        Blanks {
            take: Blank::new(parts),
            look: Blank::new(parts),
            split: Blank::new(parts),
            finish: Blank::new(parts),
            back: Blank::new(parts),
        }
    }
}

/// The sums of all shares of the five ledgers.
#[derive(Drop)]
pub struct Books<K: Ledger, L: Ledger, S: Ledger, D: Ledger, B: Ledger> {
    pub(crate) take: Book<K>,
    pub(crate) look: Book<L>,
    pub(crate) split: Book<S>,
    pub(crate) finish: Book<D>,
    pub(crate) back: Book<B>,
}

impl<K: Ledger, L: Ledger, S: Ledger, D: Ledger, B: Ledger> Books<K, L, S, D, B> {
    ghost use Rattle.dd_board.specs.Ledgers.{HaveTotals};

    /// The books and all shares of new ledgers.
    pub(crate) fn open(blanks: Blanks) -> (Books<K, L, S, D, B>, Shares<K, L, S, D, B>)
        requires { AreLedgers blanks (K.name, K.parts) (L.name, L.parts)
            (S.name, S.parts) (D.name, D.parts) (B.name, B.parts) }
        ensures totals { HaveTotals result.0 0 0 0 0 0 }
        ensures amounts { HaveAmounts result.1 0 0 0 0 0 }
        ensures parts { (result.1.take.parts ≡ K.parts) × (result.1.look.parts ≡ L.parts)
            × (result.1.split.parts ≡ S.parts) × (result.1.finish.parts ≡ D.parts)
            × (result.1.back.parts ≡ B.parts) }
    {
        let Blanks {
            take,
            look,
            split,
            finish,
            back,
        } = blanks;
        let (take, take_share) = take.open::<K>();
        let (look, look_share) = look.open::<L>();
        let (split, split_share) = split.open::<S>();
        let (finish, finish_share) = finish.open::<D>();
        let (back, back_share) = back.open::<B>();
        let books = Books {
            take,
            look,
            split,
            finish,
            back,
        };
        let shares = Shares {
            take: take_share,
            look: look_share,
            split: split_share,
            finish: finish_share,
            back: back_share,
        };
        (books, shares)
    }

    /// With all shares together, the sums are the amounts of these.
    pub(crate) fn audit(&mut self, shares: &mut Shares<K, L, S, D, B>)
        requires { (shares.old.take.parts ≡ K.parts) × (shares.old.look.parts ≡ L.parts)
            × (shares.old.split.parts ≡ S.parts) × (shares.old.finish.parts ≡ D.parts)
            × (shares.old.back.parts ≡ B.parts) }
        ensures { HaveAmounts shares.old self.old.take.total self.old.look.total
            self.old.split.total self.old.finish.total self.old.back.total }
    {
        self.take.audit(&mut shares.take);
        self.look.audit(&mut shares.look);
        self.split.audit(&mut shares.split);
        self.finish.audit(&mut shares.finish);
        self.back.audit(&mut shares.back);
    }
}
