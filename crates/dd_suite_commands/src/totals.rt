ghost use Rattle.std.specs.Prelude.{◌≡◌, ◌++◌, ℕ, ◌<◌, ◌≤◌, List, [], map, length, slice_get, OnOk, OnErr};
ghost use Rattle.std.specs.List.{AllByRecursion, flat_map};
ghost use Rattle.dd_model.specs.Longer.{IsLonger};
ghost use Rattle.dd_suite_commands.specs.Totals.{total_text};

use dd_model::{Memory, put_bytes};
use indexmap::IndexMap;
use std::alloc::Global;

/// How often each name came, in the order in which the names were first seen.
#[derive(Drop)]
pub struct Totals {
    counts: IndexMap<Vec<u8>, u64>,
}

impl Totals {
    ghost use Rattle.dd_suite_commands.specs.Totals.{counted_in, counted};

    /// No name.
    pub fn new(alloc: Global) -> Totals
        ensures { counted_in result ≡ [] }
    {
        Totals {
            counts: IndexMap::new(alloc),
        }
    }

    /// Counts a name once more. After `Err`, which comes if an allocation fails, the counts are as
    /// before.
    pub fn add(&mut self, name: Vec<u8>) -> Result<(), Memory>
        requires { AllByRecursion (λ e. e.1 < 1000000000) (counted_in self.old) }
        ensures counted { OnOk result
            (counted_in self.new ≡ counted (counted_in self.old) name.items) }
        ensures same { OnErr result (counted_in self.new ≡ counted_in self.old) }
    {
        let count = match self.counts.get(&name) {
            Some(count) => *count + 1,
            None => 1,
        };
        self.counts.insert(name, count)?;
        Ok(())
    }

    /// The number of different names.
    pub fn len(&self) -> usize
        ensures { result ≡ length (counted_in self.now) }
    {
        self.counts.len()
    }

    /// Appends a line for each name, which begins with a word. At `Err` the old text stays in
    /// front.
    pub fn put(&self, word: &str, out: &mut Vec<u8>) -> Result<(), Memory>
        ensures lines { OnOk result (out.new.items ≡ out.old.items
            ++ flat_map (total_text word.now) (counted_in self.now)) }
        ensures longer { IsLonger out.old.items out.new.items }
    {
        for place in 0..self.counts.len() {
            let (name, count) = self.entry_at(place);
            put_total(out, word, name, count)?;
        }
        Ok(())
    }

    /// The name at a place, and its number.
    fn entry_at(&self, place: usize) -> (&[u8], u64)
        requires { place < length (counted_in self.now) }
        ensures { slice_get (counted_in self.now) place ≡ Some (result.0.now, result.1) }
    {
        match self.counts.get_index(place) {
            Some((name, count)) => (name.as_slice(), *count),
            None => unreachable!(),
        }
    }
}

/// Appends the line of a name and its number, which begins with a word.
fn put_total(out: &mut Vec<u8>, word: &str, name: &[u8], count: u64) -> Result<(), Memory>
    ensures line { OnOk result
        (out.new.items ≡ out.old.items ++ total_text word.now (name.now, count)) }
    ensures longer { IsLonger out.old.items out.new.items }
{
    let alloc = *out.allocator();
    let end = format!(in alloc; " {count}\n")?;
    put_bytes(out, word.as_bytes())?;
    put_bytes(out, b" ")?;
    put_bytes(out, name)?;
    put_bytes(out, end.as_bytes())?;
    Ok(())
}
