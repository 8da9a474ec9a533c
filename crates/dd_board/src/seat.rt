ghost use Rattle.std.specs.Prelude.{◌≡◌};
ghost use Rattle.dd_board.specs.Shares.{HaveParts};

use crate::shares::Shares;
use std::sync::ledger::Ledger;

/// A worker's place at a board: the worker's number, and one part of each of the board's ledgers,
/// with what the worker's calls have counted there.
#[derive(Drop)]
pub struct Seat<K: Ledger, L: Ledger, S: Ledger, D: Ledger, B: Ledger> {
    pub(crate) worker: u32,
    pub(crate) shares: Shares<K, L, S, D, B>,
    ghost one_part: { HaveParts shares 1 },
}

impl<K: Ledger, L: Ledger, S: Ledger, D: Ledger, B: Ledger> Seat<K, L, S, D, B> {
    /// The number of the worker.
    pub fn worker(&self) -> u32
        ensures { result ≡ self.now.worker }
    {
        self.worker
    }
}
