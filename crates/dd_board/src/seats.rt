ghost use Rattle.std.specs.Prelude.{◌≡◌, ◌<◌, length, map, IfOk};
ghost use Rattle.dd_model.specs.Code.{count_from};
ghost use Rattle.dd_board.specs.Shares.{HaveParts, HaveAmounts};
ghost use Rattle.dd_board.specs.Seats.{HaveSums};

use crate::seat::Seat;
use crate::shares::Shares;
use dd_model::Memory;
use std::alloc::Global;
use std::sync::ledger::Ledger;

/// Returns a seat for each of `workers` workers, among whom the shares are dealt out.
pub(crate) fn seats_of<K: Ledger, L: Ledger, S: Ledger, D: Ledger, B: Ledger>(
    alloc: Global,
    mut shares: Shares<K, L, S, D, B>,
    count: u32,
) -> Result<Vec<Seat<K, L, S, D, B>>, Memory>
    requires parts { HaveParts shares count }
    requires amounts { HaveAmounts shares 0 0 0 0 0 }
    ensures count { IfOk result (λ seats. length seats.items ≡ count) }
    ensures workers { IfOk result (λ seats. map (λ s. s.worker) seats.items ≡ count_from 1 count) }
    ensures sums { IfOk result (λ seats. HaveSums seats.items 0 0 0 0 0) }
{
    let mut seats = Vec::with_capacity(alloc, count as usize)?;
    for index in 0..count {
        seats.push_reserved(Seat {
            worker: index + 1,
            shares: shares.one_of_each(),
        });
    }
    Ok(seats)
}

/// All shares of the seats, together.
pub(crate) fn all_shares<K: Ledger, L: Ledger, S: Ledger, D: Ledger, B: Ledger>(
    mut seats: Vec<Seat<K, L, S, D, B>>,
) -> Shares<K, L, S, D, B>
    requires { 0 < length seats.items }
    ensures parts { HaveParts result (length seats.items) }
    ensures sums { HaveSums seats.items result.take.amount result.look.amount
        result.split.amount result.finish.amount result.back.amount }
{
    let Seat {
        worker: _,
        mut shares,
    } = seats.remove(0);
    while !seats.is_empty() {
        let Seat {
            worker: _,
            shares: more,
        } = seats.remove(0);
        shares.merge(more);
    }
    shares
}
