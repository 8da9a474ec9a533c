ghost use Rattle.std.specs.Prelude.{◌≡◌, ◌+◌, ◌<◌, ◌≤◌, ℕ, length, map, sum_by, All, IfOk, OnOk};
ghost use Rattle.dd_steal_deques.specs.Hands.{hand_place, hand_deck, hand_core, hand_ends, passes_at, IsNew, HasNoPasses, way_end};
ghost use Rattle.dd_steal_deques.specs.Ends.{way_taken};
ghost use Rattle.dd_steal_deques.specs.Numbers.{times};
ghost use Rattle.dd_steal_deques.specs.Places.{IsRack, LeadsInto, others};

use crate::hand::Hand;
use crate::owner::Owner;
use crate::way::Way;
use dd_front::Naming;
use dd_model::Memory;
use std::alloc::Global;

/// Returns a hand for each of `workers` workers, with an empty deque and no ways.
pub(crate) fn bare_hands<N: Naming>(
    alloc: Global,
    workers: u32,
    room: u32,
) -> Result<Vec<Hand<N>>, Memory>
    ensures count { IfOk result (λ hands. length hands.items ≡ workers) }
    ensures new { IfOk result (λ hands. All (IsNew room) hands.items) }
    ensures alone { IfOk result (λ hands. All HasNoPasses hands.items) }
{
    let mut hands = Vec::with_capacity(alloc, workers as usize)?;
    for _ in 0..workers {
        let owner = Owner::open(alloc, room)?;
        let ways = Vec::new(alloc);
        hands.push(Hand { owner, ways })?;
    }
    Ok(hands)
}

/// Ways into the deques of all hands but the one at this index.
pub(crate) fn ways_for<N: Naming>(
    hands: &mut Vec<Hand<N>>,
    alloc: Global,
    index: usize,
) -> Result<Vec<Way<N>>, Memory>
    requires few { length hands.old.items ≤ 64 }
    ensures same { map hand_core hands.new.items ≡ map hand_core hands.old.items }
    ensures passes { OnOk result ((k : ℕ) → k < length hands.old.items →
        passes_at hands.new.items k ≡ passes_at hands.old.items k
        + times (k + 1) (others (index + 1) (length hands.old.items))) }
    ensures froms { IfOk result (λ ways. map (λ e. e.from) (map way_end ways.items)
        ≡ others (index + 1) (length hands.old.items)) }
    ensures into { IfOk result (λ ways.
        All (LeadsInto (map hand_deck hands.old.items)) (map way_end ways.items)) }
    ensures none { IfOk result (λ ways. sum_by way_taken ways.items ≡ 0) }
{
    let mut ways = Vec::with_capacity(alloc, hands.len())?;
    for other in 0..hands.len() {
        if other == index {
            continue;
        }
        let way = hands[other].way(other as u32 + 1)?;
        ways.push(way)?;
    }
    Ok(ways)
}

/// Gives each hand its ways into the deques of the others.
pub(crate) fn link<N: Naming>(hands: &mut Vec<Hand<N>>, alloc: Global) -> Result<(), Memory>
    requires few { length hands.old.items ≤ 64 }
    requires alone { All HasNoPasses hands.old.items }
    ensures count { length hands.new.items ≡ length hands.old.items }
    ensures new { OnOk result ((room : ℕ) →
        All (IsNew room) hands.old.items → All (IsNew room) hands.new.items) }
    ensures rack { OnOk result (IsRack (map hand_place hands.new.items)) }
{
    for index in 0..hands.len() {
        let ways = ways_for(hands, alloc, index)?;
        hands[index].give_ways(ways);
    }
    Ok(())
}
