ghost use Rattle.std.specs.Prelude.{◌≡◌, ℕ, ◌≤◌, ◌↔◌, length, IfOk, IfErr, OnOk};

use crate::involutions::Involutions;
use crate::refusals::Refusal;
use dd_model::{Index, Memory, Pair};
use std::alloc::Global;

impl Involutions {
    ghost use Rattle.dd_model.specs.declared.index.Index.{Index as Letter};
    ghost use Rattle.dd_model.specs.Symbol.{IsChamber, op};
    ghost use Rattle.dd_model.specs.Connected.{IsReached, Connected};
    ghost use Rattle.dd_symbol.specs.Walk.{IsWalk, IsMarked, Grows};
    ghost use Rattle.dd_symbol.specs.Refusals.{IsInvolutionsFault};
    ghost use Rattle.dd_symbol.specs.Conditions.{AtAll, Commutes};

    /// Marks a chamber, and queues it if it was not marked.
    fn mark(&self, seen: &mut Vec<bool>, queue: &mut Vec<u32>, chamber: u32) -> Result<(), Memory>
        requires walk { IsWalk self.now seen.old.items queue.old.items }
        requires chamber { IsChamber self.now chamber }
        requires reached { IsReached self.now chamber }
        ensures walk { OnOk result (IsWalk self.now seen.new.items queue.new.items) }
        ensures grows { OnOk result
            (Grows seen.old.items queue.old.items seen.new.items queue.new.items) }
        ensures marked { OnOk result (IsMarked seen.new.items chamber) }
    {
        let place = chamber as usize - 1;
        if !seen[place] {
            queue.push(chamber)?;
            seen[place] = true;
        }
        Ok(())
    }

    /// Marks the images of a chamber.
    fn visit(&self, seen: &mut Vec<bool>, queue: &mut Vec<u32>, chamber: u32) -> Result<(), Memory>
        requires walk { IsWalk self.now seen.old.items queue.old.items }
        requires chamber { IsChamber self.now chamber }
        requires reached { IsReached self.now chamber }
        ensures walk { OnOk result (IsWalk self.now seen.new.items queue.new.items) }
        ensures grows { OnOk result
            (Grows seen.old.items queue.old.items seen.new.items queue.new.items) }
        ensures images { OnOk result ((i : Letter)
            → IsMarked seen.new.items (op self.now i chamber)) }
    {
        for i in Index::ALL {
            self.mark(seen, queue, self.op(i, chamber))?;
        }
        Ok(())
    }

    /// For each chamber, whether some word leads to it from chamber 1.
    fn reached(&self, alloc: Global) -> Result<Vec<bool>, Memory>
        requires some { 1 ≤ self.now.size }
        ensures length { IfOk result (λ seen. length seen.items ≡ self.now.size) }
        ensures reached { IfOk result (λ seen. (d : ℕ) → IsChamber self.now d
            → IsMarked seen.items d ↔ IsReached self.now d) }
    {
        let mut seen = vec![in alloc; false; self.size() as usize]?;
        let mut queue = Vec::with_capacity(alloc, self.size() as usize)?;
        self.mark(&mut seen, &mut queue, 1)?;
        let mut at = 0;
        while at < queue.len() {
            let chamber = queue[at];
            at += 1;
            self.visit(&mut seen, &mut queue, chamber)?;
        }
        Ok(seen)
    }

    /// Refuses a chamber that s0 s2 s0 s2 moves.
    pub(crate) fn check_commuting(&self) -> Result<(), Refusal>
        ensures commuting { OnOk result (AtAll self.now (Commutes self.now)) }
        ensures why { IfErr result (λ why. IsInvolutionsFault self.now why) }
    {
        for k in 0..self.size() {
            let chamber = k + 1;
            let once = self.turned(Pair::Edge, chamber);
            if self.turned(Pair::Edge, once) != chamber {
                return Err(Refusal::NotCommuting { chamber });
            }
        }
        Ok(())
    }

    /// Refuses a chamber to which no word leads from chamber 1.
    pub(crate) fn check_connected(&self, alloc: Global) -> Result<(), Refusal>
        requires some { 1 ≤ self.now.size }
        requires commuting { AtAll self.now (Commutes self.now) }
        ensures connected { OnOk result (Connected self.now) }
        ensures why { IfErr result (λ why. IsInvolutionsFault self.now why) }
    {
        let seen = self.reached(alloc)?;
        for k in 0..self.size() {
            let chamber = k + 1;
            if !seen[k as usize] {
                return Err(Refusal::NotConnected { chamber });
            }
        }
        Ok(())
    }
}
