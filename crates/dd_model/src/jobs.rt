ghost use Rattle.std.specs.Prelude.{◌≡◌, ℕ, List, [], IfOk};

use crate::memory::Memory;
use smallvec::SmallVec;
use std::alloc::Global;
use std::marker::Model;

/// The first numbers of a code, each at most 216. Up to 16 of them take no memory of their own.
#[derive(Drop)]
pub struct Prefix {
    numbers: SmallVec<u8, 16, Global>,
}

impl Model for Prefix {
    ghost Value = { List ℕ };

    ghost view = { λ a. a.numbers.items };
}

impl Prefix {
    /// A prefix with these numbers.
    pub fn from_slice(alloc: Global, numbers: &[u8]) -> Result<Prefix, Memory>
        ensures { IfOk result (λ prefix. prefix ≡ numbers.now) }
    {
        Ok(Prefix {
            numbers: SmallVec::from_slice(alloc, numbers)?,
        })
    }

    /// The numbers of the prefix.
    pub fn as_slice(&self) -> &[u8]
        ensures { result.now ≡ self.now }
    {
        self.numbers.as_slice()
    }
}

/// The symbols of one size whose codes begin with a prefix.
#[derive(Drop)]
pub struct Job {
    /// The number of chambers.
    pub size: u32,
    /// What the codes begin with.
    pub prefix: Prefix,
}

impl Job {
    /// An equal job.
    pub fn try_copy(&self) -> Result<Job, Memory>
        ensures { IfOk result (λ job. job ≡ self.now) }
    {
        let prefix = Prefix::from_slice(*self.prefix.numbers.allocator(), self.prefix.as_slice())?;
        Ok(Job {
            size: self.size,
            prefix,
        })
    }
}

/// A place in the order of all symbols.
#[derive(Drop)]
pub enum Position {
    /// Before the symbols of a size whose codes begin with the prefix, which may be a whole code.
    At(Job),
    /// After all symbols.
    End,
}
