ghost use Rattle.std.specs.Prelude.{◌≡◌, ◌+◌, MatchOption, IfNone};
ghost use Rattle.dd_steal_deques.specs.Rests.{rest_pushed, rest_taken, IsEmpty};

use crate::rest::Rest;
use dd_front::{Naming, Ticket};

impl<N: Naming> Rest<N> {
    /// Takes a ticket out of one of the deques. `None` comes exactly where all of them are empty:
    /// as many tickets were then pushed as were popped, stolen and given here.
    pub fn next(&mut self) -> Option<Ticket<N>>
        ensures pushed { rest_pushed self.new ≡ rest_pushed self.old }
        ensures taken { MatchOption result (rest_taken self.new ≡ rest_taken self.old)
            (λ _. rest_taken self.new ≡ rest_taken self.old + 1) }
        ensures rest { MatchOption result (IsEmpty self.old) (λ _. ¬ (IsEmpty self.old)) }
        ensures all { IfNone result (rest_taken self.old ≡ rest_pushed self.old) }
    {
        for index in 0..self.hands.len() {
            match self.hands[index].pop() {
                Some(ticket) => return Some(ticket),
                None => {}
            }
        }
        None
    }
}
