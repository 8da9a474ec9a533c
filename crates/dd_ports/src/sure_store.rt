ghost use Rattle.std.specs.Prelude.{◌≡◌, List, None, true, option_map};
ghost use Rattle.dd_ports.specs.Shelf.{shelf_held};

use crate::fault_count::FaultCount;
use crate::shelf::{Shelf, fill};
use crate::store::{Fetched, Store, StoreFault};
use std::alloc::Global;

/// A store in memory. No call fails but a fetch of a name that holds nothing.
#[derive(Drop)]
pub struct SureStore {
    shelf: Shelf,
    faults: FaultCount,
}

impl SureStore {
    ghost use Rattle.dd_ports.specs.Stores.{sure_store_held};

    /// A store in which no name holds anything.
    pub fn new(alloc: Global) -> SureStore
        ensures { (name : List _) → sure_store_held result name ≡ None }
    {
        SureStore {
            shelf: Shelf::new(alloc),
            faults: FaultCount::new(),
        }
    }

    /// The text that a name holds.
    pub fn held(&self, name: &str) -> Option<&[u8]>
        ensures { option_map (λ t. t.now) result ≡ sure_store_held self.now name.now }
    {
        self.shelf.text(name)
    }
}

impl Store for SureStore {
    ghost tells = { λ _. true };

    ghost held = { λ s. shelf_held s.shelf };

    ghost faults = { λ s. s.faults };

    ghost sure = { λ _. true };

    fn fetch(
        &mut self,
        name: &str,
        into: &mut Vec<u8>,
        limit: usize,
    ) -> Result<Fetched, StoreFault> {
        match self.shelf.text(name) {
            Some(text) => Ok(fill(text, into, limit)?),
            None => {
                self.faults.rise();
                Err(StoreFault::Failed)
            }
        }
    }

    fn put(&mut self, name: &str, bytes: &[u8]) -> Result<(), StoreFault> {
        Ok(self.shelf.set(name, bytes)?)
    }
}
