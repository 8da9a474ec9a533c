ghost use Rattle.std.specs.Prelude.{◌≡◌, ◌-◌, ◌≤◌, List, length, take, drop, IfOk};
ghost use Rattle.std.specs.Arc.{arc_value};
ghost use Rattle.dd_model.specs.Symbol.{Symbol};

use dd_member_lists::{SymbolList, Symbols};
use dd_model::Memory;
use std::alloc::Global;
use std::marker::Model;
use std::sync::Arc;

/// A list of members of a catalogue in order, or a part of one. The list may have several owners,
/// so that what stands in an entry and in a log is there once.
#[derive(Drop)]
pub struct Span {
    list: Arc<SymbolList, Global>,
    start: usize,
    end: usize,
}

impl Model for Span {
    ghost Value = { List Symbol };

    ghost view = { λ a. take (a.end - a.start) (drop a.start (arc_value a.list)) };

    ghost invariant = { λ a. (a.start ≤ a.end) × (a.end ≤ length (arc_value a.list)) };
}

impl Span {
    /// The members of a list, which is moved and not copied.
    pub fn new(alloc: Global, list: SymbolList) -> Result<Span, Memory>
        ensures { IfOk result (λ span. span ≡ list) }
    {
        let end = list.len();
        Ok(Span {
            list: Arc::new(alloc, list)?,
            start: 0,
            end,
        })
    }

    /// A further owner of the same members.
    pub fn share(&self) -> Result<Span, Memory>
        ensures { IfOk result (λ span. span ≡ self.now) }
    {
        Ok(Span {
            list: Arc::try_clone(&self.list)?,
            start: self.start,
            end: self.end,
        })
    }

    /// The members in order.
    pub fn symbols(&self) -> Symbols<'_>
        ensures { result ≡ self.now }
    {
        let list: &SymbolList = &self.list;
        list.range(self.start, self.end)
    }

    /// How many members there are.
    pub fn len(&self) -> usize
        ensures { result ≡ length self.now }
    {
        self.end - self.start
    }

    /// Leaves out the first `count` members.
    pub fn skip(&mut self, count: usize)
        requires { count ≤ length self.old }
        ensures { self.new ≡ drop count self.old }
    {
        self.start += count;
    }

    /// Keeps only the first `count` members.
    pub fn keep(&mut self, count: usize)
        requires { count ≤ length self.old }
        ensures { self.new ≡ take count self.old }
    {
        self.end = self.start + count;
    }
}
