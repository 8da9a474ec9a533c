ghost use Rattle.std.specs.Prelude.{◌≡◌, None, Some, List, [], OnOk, OnErr, option_map};
ghost use Rattle.dd_ports.specs.Texts.{FillsFrom};

use crate::store::Fetched;
use std::alloc::{AllocError, Global};
use std::collections::BTreeMap;

/// Texts in memory, by their names.
#[derive(Drop)]
pub(crate) struct Shelf {
    alloc: Global,
    texts: BTreeMap<String, Vec<u8>>,
}

impl Shelf {
    ghost use Rattle.dd_ports.specs.Shelf.{shelf_held};
    ghost use Rattle.dd_ports.specs.Texts.{SameOthers, SameTexts};

    /// A shelf on which no name holds anything.
    pub fn new(alloc: Global) -> Shelf
        ensures { (name : List _) → shelf_held result name ≡ None }
    {
        Shelf {
            alloc,
            texts: BTreeMap::new(alloc),
        }
    }

    /// The text under a name.
    pub fn text(&self, name: &str) -> Option<&[u8]>
        ensures { option_map (λ t. t.now) result ≡ shelf_held self.now name.now }
    {
        match self.texts.get(name) {
            Some(text) => Some(text.as_slice()),
            None => None,
        }
    }

    /// Puts a text in the place of what the name holds. At `Err` nothing changes.
    pub fn set(&mut self, name: &str, bytes: &[u8]) -> Result<(), AllocError>
        ensures ok { OnOk result (shelf_held self.new name.now ≡ Some bytes.now) }
        ensures others { SameOthers name.now (shelf_held self.old) (shelf_held self.new) }
        ensures err { OnErr result (SameTexts (shelf_held self.old) (shelf_held self.new)) }
    {
        let key = String::from_str(self.alloc, name)?;
        let value = Vec::from_slice(self.alloc, bytes)?;
        self.texts.insert(key, value)?;
        Ok(())
    }
}

/// Copies the first bytes of a text.
pub(crate) fn fill(text: &[u8], into: &mut Vec<u8>, limit: usize) -> Result<Fetched, AllocError>
    requires { into.old.items ≡ [] }
    ensures { FillsFrom text.now limit into.new.items result }
{
    if text.len() <= limit {
        into.extend_from_slice(text)?;
        return Ok(Fetched::Whole);
    }
    into.extend_from_slice(&text[..limit])?;
    Ok(Fetched::Longer)
}
