ghost use Rattle.std.specs.Prelude.{◌≡◌, List, [], None, Some, Err, true, false, option_map};
ghost use Rattle.std.specs.Prelude.{OnOk, IsErrOf, IsSome};
ghost use Rattle.dd_ports.specs.declared.store.StoreFault.TheVariants.{Failed};
ghost use Rattle.dd_ports.specs.Causes.{HasCause, StaysSure};
ghost use Rattle.dd_ports.specs.Texts.{Fills, Fetches, Puts, SameTexts, SameOthers};
ghost use Rattle.dd_ports.specs.Schedule.{is_over};
ghost use Rattle.dd_ports.specs.Shelf.{shelf_held};
ghost use Rattle.dd_ports.specs.Stores.{memory_store_held, memory_store_is_due, memory_store_keeps_new};
ghost use Rattle.dd_ports.specs.Stores.{CountsCall};

use crate::fault_count::FaultCount;
use crate::schedule::Schedule;
use crate::shelf::{Shelf, fill};
use crate::store::{Fetched, Store, StoreFault};
use std::alloc::Global;

/// A store in memory whose calls with the listed numbers fail.
#[derive(Drop)]
pub struct MemoryStore {
    shelf: Shelf,
    schedule: Schedule,
    keeps_new: bool,
    faults: FaultCount,
}

impl MemoryStore {
    ghost use Rattle.dd_ports.specs.Stores.{memory_store_fails, memory_store_next};

    /// A store in which no name holds anything. Its calls, fetches and puts alike, are counted
    /// from 1. A put that fails leaves the new text where `keeps_new`, else the old one.
    pub fn new(alloc: Global, fails: Vec<u64>, keeps_new: bool) -> MemoryStore
        ensures empty { (name : List _) → memory_store_held result name ≡ None }
        ensures fails { memory_store_fails result ≡ fails.items }
        ensures first { memory_store_next result ≡ 1 }
        ensures keeps_new { memory_store_keeps_new result ≡ keeps_new }
    {
        MemoryStore {
            shelf: Shelf::new(alloc),
            schedule: Schedule::new(fails),
            keeps_new,
            faults: FaultCount::new(),
        }
    }

    /// The text that a name holds.
    pub fn held(&self, name: &str) -> Option<&[u8]>
        ensures { option_map (λ t. t.now) result ≡ memory_store_held self.now name.now }
    {
        self.shelf.text(name)
    }
}

impl Store for MemoryStore {
    ghost tells = { λ _. true };

    ghost held = { λ s. shelf_held s.shelf };

    ghost faults = { λ s. s.faults };

    ghost sure = { λ s. is_over s.schedule };

    fn fetch(&mut self, name: &str, into: &mut Vec<u8>, limit: usize) -> Result<Fetched, StoreFault>
        requires { into.old.items ≡ [] }
        ensures fills { Fills limit into.new.items result }
        ensures bytes { Fetches (memory_store_held self.old name.now) into.new.items result }
        ensures same { SameTexts (memory_store_held self.old) (memory_store_held self.new) }
        ensures cause { HasCause Failed self.old.faults self.new.faults result }
        ensures sure { is_over self.old.schedule ≡ true → is_over self.new.schedule ≡ true }
        ensures passes { is_over self.old.schedule ≡ true
            → IsSome (memory_store_held self.old name.now)
            → StaysSure Failed self.old.faults self.new.faults (is_over self.new.schedule) result }
        ensures counted { CountsCall self.old self.new }
        ensures due { memory_store_is_due self.old ≡ true → result ≡ Err Failed }
        ensures not_due { memory_store_is_due self.old ≡ false
            → IsSome (memory_store_held self.old name.now) → IsErrOf result Failed → ⊥ }
    {
        let fails = self.schedule.turn();
        if fails {
            self.faults.rise();
            return Err(StoreFault::Failed);
        }
        match self.shelf.text(name) {
            Some(text) => Ok(fill(text, into, limit)?),
            None => {
                self.faults.rise();
                Err(StoreFault::Failed)
            }
        }
    }

    fn put(&mut self, name: &str, bytes: &[u8]) -> Result<(), StoreFault>
        ensures bytes { Puts (memory_store_held self.old name.now)
            (memory_store_held self.new name.now)
            bytes.now result }
        ensures same { SameOthers name.now
            (memory_store_held self.old) (memory_store_held self.new) }
        ensures cause { HasCause Failed self.old.faults self.new.faults result }
        ensures sure { is_over self.old.schedule ≡ true
            → StaysSure Failed self.old.faults self.new.faults (is_over self.new.schedule) result }
        ensures counted { CountsCall self.old self.new }
        ensures due { memory_store_is_due self.old ≡ true → OnOk result ⊥ }
        ensures not_due { memory_store_is_due self.old ≡ false → IsErrOf result Failed → ⊥ }
        ensures old_left { memory_store_is_due self.old ≡ true
            → memory_store_keeps_new self.old ≡ false
            → memory_store_held self.new name.now ≡ memory_store_held self.old name.now }
        ensures new_left { memory_store_is_due self.old ≡ true
            → memory_store_keeps_new self.old ≡ true
            → IsErrOf result Failed → memory_store_held self.new name.now ≡ Some bytes.now }
    {
        let fails = self.schedule.turn();
        if !fails || self.keeps_new {
            self.shelf.set(name, bytes)?;
        }
        if fails {
            self.faults.rise();
            return Err(StoreFault::Failed);
        }
        Ok(())
    }
}
