ghost use Rattle.std.specs.Prelude.{◌≡◌, ◌++◌, ◌≤◌, ◌<◌, ◌^◌, [], List, length, take, drop, slice_index_or, IfOk, OnOk, OnErr};
ghost use Rattle.std.specs.List.{AllByRecursion};
ghost use Rattle.dd_model.specs.Symbol.{Symbol, IsSymbol};
ghost use Rattle.dd_model.specs.Lists.{IsWithout};
ghost use Rattle.dd_model.specs.Position.{IsBefore};
ghost use Rattle.dd_model.specs.Wanted.{IsAscending};
ghost use Rattle.dd_front.specs.Spans.{IsCut, joined_spans};

use crate::span::Span;
use dd_member_lists::SymbolList;
use dd_model::{Memory, Position};
use dd_symbol::Connected;
use std::alloc::Global;
use std::marker::Model;

/// Members of a catalogue in order, in spans that follow each other, so that lists are joined and
/// cut without a copy of a member.
#[derive(Drop)]
pub struct Members {
    spans: Vec<Span>,
}

impl Model for Members {
    ghost Value = { List Symbol };

    ghost view = { λ a. joined_spans a.spans.items };
}

/// Returns how many spans the first `count` members fill, and how many members of the next span
/// they are.
fn cut(spans: &[Span], count: u128) -> (usize, usize)
    requires { count ≤ length (joined_spans spans.now) }
    ensures { IsCut spans.now count result.0 result.1 }
{
    let mut rest = count;
    for (k, span) in spans.iter().enumerate() {
        let long = span.len() as u128;
        if rest < long {
            return (k, rest as usize);
        }
        rest -= long;
    }
    (spans.len(), 0)
}

impl Members {
    /// No members.
    pub fn none(alloc: Global) -> Members
        ensures { result ≡ [] }
    {
        Members {
            spans: Vec::new(alloc),
        }
    }

    /// Returns the members of a list, which is moved and not copied. It allocates nothing for an
    /// empty list.
    pub fn new(alloc: Global, list: SymbolList) -> Result<Members, Memory>
        ensures { IfOk result (λ members. members ≡ list) }
    {
        if list.len() == 0 {
            return Ok(Members::none(alloc));
        }
        let span = Span::new(alloc, list)?;
        Ok(Members {
            spans: vec![in alloc; span]?,
        })
    }

    /// A further owner of the same members.
    pub fn share(&self) -> Result<Members, Memory>
        ensures { IfOk result (λ list. list ≡ self.now) }
    {
        let mut spans = Vec::with_capacity(*self.spans.allocator(), self.spans.len())?;
        for span in &self.spans {
            spans.push_reserved(span.share()?);
        }
        Ok(Members { spans })
    }

    /// The spans, in order.
    pub fn spans(&self) -> &[Span]
        ensures { joined_spans result.now ≡ self.now }
    {
        &self.spans
    }

    /// The allocator.
    pub fn allocator(&self) -> &Global {
        self.spans.allocator()
    }

    /// How many members there are. Two such counts can be added.
    pub fn len(&self) -> u128
        ensures count { result ≡ length self.now }
        ensures small { result < 2 ^ 127 }
    {
        let mut count = 0;
        for span in &self.spans {
            count += span.len() as u128;
        }
        count
    }

    /// Puts other members behind these. At `Err` these are as before.
    pub fn append(&mut self, other: Members) -> Result<(), Memory>
        ensures members { OnOk result (self.new ≡ self.old ++ other) }
        ensures same { OnErr result (self.new ≡ self.old) }
    {
        let Members { mut spans } = other;
        Ok(self.spans.append(&mut spans)?)
    }

    /// A copy of the member at a place, counted from 0.
    pub fn copy(&self, place: u128) -> Result<Connected, Memory>
        requires { place < length self.now }
        ensures { IfOk result (λ member. member ≡ slice_index_or self.now place member) }
    {
        let (k, rest) = cut(&self.spans, place);
        self.spans[k].symbols().copy(*self.allocator(), rest)
    }

    /// Leaves out the first `count` members.
    pub fn skip(&mut self, count: u128)
        requires { count ≤ length self.old }
        ensures { self.new ≡ drop count self.old }
    {
        // Most lists are emitted whole.
        if count == 0 {
            return;
        }
        let (k, rest) = cut(&self.spans, count);
        let _ = self.spans.drain(..k);
        if rest > 0 {
            let first = &mut self.spans[0];
            first.skip(rest);
        }
    }

    /// Keeps only the first `count` members.
    pub fn keep(&mut self, count: u128)
        requires { count ≤ length self.old }
        ensures { self.new ≡ take count self.old }
    {
        let (k, rest) = cut(&self.spans, count);
        if rest > 0 {
            let last = &mut self.spans[k];
            last.keep(rest);
            self.spans.truncate(k + 1);
        } else {
            self.spans.truncate(k);
        }
    }

    /// How many members of an ascending list are before a position: they are its first ones.
    pub fn count_before(&self, at: &Position) -> u128
        requires ascending { IsAscending self.now }
        requires symbols { AllByRecursion IsSymbol self.now }
        ensures within { result ≤ length self.now }
        ensures without { IsWithout (IsBefore at.now) self.now (drop result self.now) }
    {
        let all = self.len();
        let mut count = 0;
        for span in &self.spans {
            let symbols = span.symbols();
            for k in 0..symbols.len() {
                if !symbols.is_before(k, at) {
                    return count;
                }
                count += 1;
            }
        }
        all
    }
}
