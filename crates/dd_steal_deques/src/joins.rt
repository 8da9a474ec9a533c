ghost use Rattle.std.specs.Prelude.{◌≡◌, ◌+◌, ◌-◌, ◌<◌, ◌∷◌, [], ℕ, map, sum_by, All};
ghost use Rattle.dd_steal_deques.specs.Hands.{hand_place, hand_deck, hand_ways, hand_pushed, hand_popped, hand_stolen, passes_at, HasNoPasses, way_end};
ghost use Rattle.dd_steal_deques.specs.Ends.{way_taken};
ghost use Rattle.dd_steal_deques.specs.Numbers.{times};
ghost use Rattle.dd_steal_deques.specs.Places.{IsRack, LeadsInto};

use crate::hand::Hand;
use crate::way::Way;
use dd_front::Naming;
use std::alloc::Global;

/// Joins a way to the owner of the deque into which it leads.
pub(crate) fn join_way<N: Naming>(hands: &mut Vec<Hand<N>>, way: Way<N>)
    requires { LeadsInto (map hand_deck hands.old.items) (way_end way) }
    ensures decks { map hand_deck hands.new.items ≡ map hand_deck hands.old.items }
    ensures ways { map hand_ways hands.new.items ≡ map hand_ways hands.old.items }
    ensures pushed { map hand_pushed hands.new.items ≡ map hand_pushed hands.old.items }
    ensures popped { sum_by hand_popped hands.new.items
        ≡ sum_by hand_popped hands.old.items + way_taken way }
    ensures passes { (k : ℕ) → passes_at hands.new.items k
        ≡ passes_at hands.old.items k - times (k + 1) (way.from ∷ []) }
{
    let index = way.from as usize - 1;
    hands[index].join(way);
}

/// Joins ways to the owners of the deques into which they lead.
pub(crate) fn join_ways<N: Naming>(hands: &mut Vec<Hand<N>>, ways: Vec<Way<N>>)
    requires { All (LeadsInto (map hand_deck hands.old.items)) (map way_end ways.items) }
    ensures decks { map hand_deck hands.new.items ≡ map hand_deck hands.old.items }
    ensures ways { map hand_ways hands.new.items ≡ map hand_ways hands.old.items }
    ensures pushed { map hand_pushed hands.new.items ≡ map hand_pushed hands.old.items }
    ensures popped { sum_by hand_popped hands.new.items
        ≡ sum_by hand_popped hands.old.items + sum_by way_taken ways.items }
    ensures passes { (k : ℕ) → passes_at hands.new.items k
        ≡ passes_at hands.old.items k - times (k + 1) (map (λ e. e.from) (map way_end ways.items)) }
{
    for way in ways {
        join_way(hands, way);
    }
}

/// Joins all ways of the hands of a rack.
pub(crate) fn join_all<N: Naming>(hands: &mut Vec<Hand<N>>, alloc: Global)
    requires { IsRack (map hand_place hands.old.items) }
    ensures pushed { map hand_pushed hands.new.items ≡ map hand_pushed hands.old.items }
    ensures popped { sum_by hand_popped hands.new.items
        ≡ sum_by hand_popped hands.old.items + sum_by hand_stolen hands.old.items }
    ensures passes { All HasNoPasses hands.new.items }
{
    for index in 0..hands.len() {
        let ways = hands[index].take_ways(alloc);
        join_ways(hands, ways);
    }
}
