ghost use Rattle.std.specs.Prelude.{◌≡◌, ◌≢◌, ◌+◌, ◌-◌, ◌<◌, ◌↔◌, [], Some, All, IfOk, IfErr, OnOk, OnErr, IfNone, IsErr, MatchOption, length, map, slice_get};
ghost use Rattle.dd_steal_deques.specs.Hands.{hand_pushed, hand_popped, hand_stolen, hand_room, hand_passes, hand_place, hand_deck, hand_core, HasAllOfHand};
ghost use Rattle.dd_steal_deques.specs.Hands.{hand_thefts};
ghost use Rattle.dd_steal_deques.specs.Ends.{way_deque, way_taken, way_number};
ghost use Rattle.dd_steal_deques.specs.Places.{StealsFrom};

use crate::owner::Owner;
use crate::way::Way;
use dd_front::{Naming, Ticket};
use dd_model::Memory;
use std::alloc::Global;
use std::mem;
use std::sync::Wait;

/// What a worker holds of a rack: its own deque, and a way into each other worker's.
#[derive(Drop)]
pub struct Hand<N: Naming> {
    pub(crate) owner: Owner<N>,
    pub(crate) ways: Vec<Way<N>>,
}

impl<N: Naming> Hand<N> {
    /// Puts the ticket at the end of the hand's own deque. `Err` comes exactly where the hand has
    /// pushed as many tickets as there is room for, and has the ticket.
    pub fn push(&mut self, ticket: Ticket<N>) -> Result<(), Ticket<N>>
        ensures refused { IsErr result ↔ (hand_pushed self.old ≡ hand_room self.old) }
        ensures ticket { IfErr result (λ back. back ≡ ticket) }
        ensures pushed { OnOk result (hand_pushed self.new ≡ hand_pushed self.old + 1) }
        ensures err { OnErr result (hand_pushed self.new ≡ hand_pushed self.old) }
        ensures popped { hand_popped self.new ≡ hand_popped self.old }
        ensures stolen { hand_stolen self.new ≡ hand_stolen self.old }
        ensures room { hand_room self.new ≡ hand_room self.old }
        ensures place { hand_place self.new ≡ hand_place self.old }
    {
        self.owner.push(ticket)
    }

    /// Takes the first ticket of the hand's own deque, which was found empty where there is none.
    /// Where no other hand has a way into it, `None` comes exactly where the hand has popped all
    /// that it pushed.
    pub fn pop(&mut self) -> Option<Ticket<N>>
        ensures popped { MatchOption result (hand_popped self.new ≡ hand_popped self.old)
            (λ _. hand_popped self.new ≡ hand_popped self.old + 1) }
        ensures within { MatchOption result
            (hand_passes self.old ≡ 0 → hand_popped self.old ≡ hand_pushed self.old)
            (λ _. hand_popped self.old < hand_pushed self.old) }
        ensures all { IfNone result (hand_passes self.old ≡ 0 → HasAllOfHand self.new) }
        ensures pushed { hand_pushed self.new ≡ hand_pushed self.old }
        ensures stolen { hand_stolen self.new ≡ hand_stolen self.old }
        ensures room { hand_room self.new ≡ hand_room self.old }
        ensures place { hand_place self.new ≡ hand_place self.old }
    {
        self.owner.pop()
    }

    /// How many other workers the rack has.
    pub fn others(&self) -> usize
        ensures { result ≡ length self.now.ways.items }
    {
        self.ways.len()
    }

    // The place among the ways of the one into the deque of the worker with the number `from`.
    fn way_from(&self, from: u32) -> Option<usize>
        ensures { MatchOption result
            (All (λ way. way_number way ≢ from) self.now.ways.items)
            (λ index. slice_get (map way_number self.now.ways.items) index ≡ Some from) }
    {
        self.ways.iter().position(|way| way.from == from)
    }

    /// Takes the first ticket of the deque of the worker with the number `from`. It tries again
    /// where another hand was quicker. A hand has no way into its own deque, and gets nothing
    /// there.
    pub fn steal<R: Wait>(&mut self, rt: &R, from: u32) -> Option<Ticket<N>>
        ensures from { MatchOption result (hand_thefts self.new ≡ hand_thefts self.old)
            (λ _. StealsFrom from (hand_thefts self.old) (hand_thefts self.new)) }
        ensures stolen { MatchOption result (hand_stolen self.new ≡ hand_stolen self.old)
            (λ _. hand_stolen self.new ≡ hand_stolen self.old + 1) }
        ensures pushed { hand_pushed self.new ≡ hand_pushed self.old }
        ensures popped { hand_popped self.new ≡ hand_popped self.old }
        ensures room { hand_room self.new ≡ hand_room self.old }
        ensures place { hand_place self.new ≡ hand_place self.old }
    {
        let index = self.way_from(from)?;
        self.ways[index].steal(rt)
    }

    // A way into the hand's own deque, which has the number `from`.
    pub(crate) fn way(&mut self, from: u32) -> Result<Way<N>, Memory>
        ensures from { IfOk result (λ way. way.from ≡ from) }
        ensures deck { IfOk result (λ way. way_deque way ≡ hand_deck self.old) }
        ensures none { IfOk result (λ way. way_taken way ≡ 0) }
        ensures passes { OnOk result (hand_passes self.new ≡ hand_passes self.old + 1) }
        ensures same { hand_core self.new ≡ hand_core self.old }
    {
        self.owner.way(from)
    }

    // Ways into the deques of others, in place of those that the hand has.
    pub(crate) fn give_ways(&mut self, ways: Vec<Way<N>>)
        ensures ways { self.new.ways ≡ ways }
        ensures owner { self.new.owner ≡ self.old.owner }
    {
        self.ways = ways;
    }

    // The ways, which the hand has no more.
    pub(crate) fn take_ways(&mut self, alloc: Global) -> Vec<Way<N>>
        ensures ways { result.items ≡ self.old.ways.items }
        ensures none { self.new.ways.items ≡ [] }
        ensures owner { self.new.owner ≡ self.old.owner }
    {
        mem::replace(&mut self.ways, Vec::new(alloc))
    }

    // What was taken by the way joins what the hand popped.
    pub(crate) fn join(&mut self, way: Way<N>)
        requires { way_deque way ≡ hand_deck self.old }
        ensures passes { hand_passes self.new ≡ hand_passes self.old - 1 }
        ensures popped { hand_popped self.new ≡ hand_popped self.old + way_taken way }
        ensures deck { hand_deck self.new ≡ hand_deck self.old }
        ensures pushed { hand_pushed self.new ≡ hand_pushed self.old }
        ensures ways { self.new.ways ≡ self.old.ways }
    {
        self.owner.join(way);
    }
}
