ghost use Rattle.std.specs.Prelude.{◌≡◌, ◌+◌, MatchOption};
ghost use Rattle.dd_steal_deques.specs.Ends.{way_deque, way_taken, SameWay};

use crate::slot::{Slot, Stolen};
use crate::way::Way;
use crossbeam_deque::Steal;
use dd_front::{Naming, Ticket};
use std::sync::Wait;

impl<N: Naming> Way<N> {
    /// Takes the first ticket of the deque. It tries again where another hand was quicker.
    pub(crate) fn steal<R: Wait>(&mut self, rt: &R) -> Option<Ticket<N>>
        ensures same { SameWay self.old self.new }
        ensures taken { MatchOption result (way_taken self.new ≡ way_taken self.old)
            (λ _. way_taken self.new ≡ way_taken self.old + 1) }
    {
        for _ in rt.forever() {
            match self.stealer.steal_as::<Stolen>(&mut self.pass) {
                Steal::Success(slot) => {
                    let Slot { number: _, ticket } = slot;
                    return Some(ticket);
                }
                Steal::Empty => return None,
                Steal::Retry => {}
            }
        }
        unreachable!()
    }
}
