ghost use Rattle.std.specs.Prelude.{◌≡◌, length, IfOk};

use dd_model::Memory;
use std::alloc::Global;

/// A worker's seat at the board and its hand of the rack.
#[derive(Drop)]
pub(crate) struct CrewMember<S: Drop, H: Drop> {
    pub seat: S,
    pub hand: H,
}

/// The workers of a round.
pub(crate) fn crew_of<S: Drop, H: Drop>(
    alloc: Global,
    seats: Vec<S>,
    hands: Vec<H>,
) -> Result<Vec<CrewMember<S, H>>, Memory>
    requires { length hands.items ≡ length seats.items }
    ensures { IfOk result (λ crew. length crew.items ≡ length seats.items) }
{
    let mut crew = Vec::with_capacity(alloc, seats.len())?;
    for (seat, hand) in seats.into_iter().zip(hands) {
        crew.push(CrewMember { seat, hand })?;
    }
    Ok(crew)
}

/// Their seats.
pub(crate) fn seats_of<S: Drop, H: Drop>(
    alloc: Global,
    crew: Vec<CrewMember<S, H>>,
) -> Result<Vec<S>, Memory>
    ensures { IfOk result (λ seats. length seats.items ≡ length crew.items) }
{
    let mut seats = Vec::with_capacity(alloc, crew.len())?;
    for member in crew {
        seats.push_reserved(member.seat);
    }
    Ok(seats)
}
