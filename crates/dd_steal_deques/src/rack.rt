ghost use Rattle.std.specs.Prelude.{◌≡◌, ◌+◌, ◌<◌, ◌≤◌, length, map, sum_by, All, IfOk};
ghost use Rattle.dd_steal_deques.specs.Hands.{hand_place, IsNew, hand_pushed, hand_popped, hand_stolen};
ghost use Rattle.dd_steal_deques.specs.Places.{IsRack};
ghost use Rattle.dd_steal_deques.specs.Rests.{rest_pushed, rest_taken};

use crate::hand::Hand;
use crate::joins::join_all;
use crate::links::{bare_hands, link};
use crate::rest::Rest;
use dd_front::Naming;
use dd_model::Memory;
use std::alloc::Global;
use std::marker::PhantomData;

/// A deque of tickets for each worker of a round.
#[derive(Drop)]
pub struct Rack<N: Naming> {
    pub(crate) alloc: Global,
    pub(crate) workers: u32,
    pub(crate) of: PhantomData<N>,
}

impl<N: Naming> Rack<N> {
    /// Returns a rack of empty deques, each with room for `room` pushes, and the hands of its
    /// workers in order. Each hand has a way into the deque of each other worker.
    pub fn open(alloc: Global, workers: u32, room: u32) -> Result<(Rack<N>, Vec<Hand<N>>), Memory>
        requires workers { (1 ≤ workers) × (workers ≤ 64) }
        requires room { (1 ≤ room) × (room ≤ 4096) }
        ensures workers { IfOk result (λ made. made.0.workers ≡ workers) }
        ensures count { IfOk result (λ made. length made.1.items ≡ workers) }
        ensures rack { IfOk result (λ made. IsRack (map hand_place made.1.items)) }
        ensures hands { IfOk result (λ made. All (IsNew room) made.1.items) }
    {
        let mut hands = bare_hands(alloc, workers, room)?;
        link(&mut hands, alloc)?;
        let rack = Rack {
            alloc,
            workers,
            of: PhantomData,
        };
        Ok((rack, hands))
    }

    /// What is left in the deques, for all hands of the rack in the order of the workers.
    pub fn close(self, hands: Vec<Hand<N>>) -> Rest<N>
        requires all { length hands.items ≡ self.workers }
        requires rack { IsRack (map hand_place hands.items) }
        ensures pushed { rest_pushed result ≡ sum_by hand_pushed hands.items }
        ensures taken { rest_taken result ≡ sum_by hand_popped hands.items
            + sum_by hand_stolen hands.items }
    {
        let mut hands = hands;
        join_all(&mut hands, self.alloc);
        Rest { hands }
    }
}
