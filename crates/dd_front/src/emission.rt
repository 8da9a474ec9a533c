ghost use Rattle.std.specs.Prelude.{◌≡◌, ◌<◌, List, length, IfOk, IfSome, IfNone, OnErr};
ghost use Rattle.std.specs.List.{AllByRecursion};
ghost use Rattle.dd_model.specs.Symbol.{Symbol as Tiling};
ghost use Rattle.dd_model.specs.Code.{code};
ghost use Rattle.dd_front.specs.Step.{at_symbol};
ghost use Rattle.dd_front.specs.Taken.{HaveSmallCodes, IsPositionIn};

use crate::front::Front;
use crate::lookups::first_list;
use crate::members::Members;
use dd_model::{Job, Memory, Position, Prefix};
use dd_symbol::Symbol;
use std::alloc::Global;

/// Returns numbers as bytes.
fn bytes_of(alloc: Global, numbers: &[u32]) -> Result<Vec<u8>, Memory>
    requires { AllByRecursion (λ n. n < 256) numbers.now }
    ensures { IfOk result (λ bytes. bytes.items ≡ numbers.now) }
{
    let mut bytes = Vec::with_capacity(alloc, numbers.len())?;
    for number in numbers {
        bytes.push(*number as u8)?;
    }
    Ok(bytes)
}

/// Returns the position at which a symbol is the next one.
fn position_at(alloc: Global, symbol: &Symbol) -> Result<Position, Memory>
    requires { AllByRecursion (λ n. n < 256) (code symbol.now) }
    ensures { IfOk result (λ position. position ≡ at_symbol symbol.now) }
{
    let code = symbol.code(alloc)?;
    let numbers = bytes_of(alloc, code.as_slice())?;
    Ok(Position::At(Job {
        size: symbol.size(),
        prefix: Prefix::from_slice(alloc, &numbers)?,
    }))
}

/// Returns the position at which the member at a place, counted from 0, is the next one.
fn position_in(alloc: Global, members: &Members, place: u128) -> Result<Position, Memory>
    requires place { place < length members.now }
    requires small { HaveSmallCodes members.now }
    ensures { IfOk result (IsPositionIn members.now place) }
{
    let member = members.copy(place)?;
    position_at(alloc, member.symbol())
}

impl Front {
    ghost use Rattle.dd_front.specs.declared.event.Event.TheVariants.{Part};
    ghost use Rattle.dd_front.specs.Allowed.{HasFirst, MayPart};
    ghost use Rattle.dd_front.specs.Taken.{IsLeft};
    ghost use Rattle.dd_front.specs.Room.{HasRoom, HasRoomToEmit};
    ghost use Rattle.dd_front.specs.Step.{Emits, EmitsPart};

    /// Takes the first entry off where it is done, and answers its members from where the front
    /// goes on.
    pub fn emit(&mut self) -> Option<Members>
        requires { HasRoomToEmit self.old }
        ensures same { IfNone result (self.new ≡ self.old) }
        ensures none { IfNone result ((list : List Tiling) → ¬ HasFirst self.old list) }
        ensures members { IfSome result (λ list. Emits self.old self.new list) }
    {
        let mut list = self.entries.take_done()?;
        let before = list.count_before(&self.from);
        list.skip(before);
        self.lines += list.len();
        Some(list)
    }

    /// The members of the first entry from where the front goes on.
    fn left(&self) -> Result<Members, Memory>
        requires { (list : List Tiling) × HasFirst self.now list }
        ensures { IfOk result (λ left. IsLeft self.now left) }
    {
        let Some(list) = first_list(self.entries.as_slice()) else {
            unreachable!()
        };
        let mut left = list.share()?;
        left.skip(list.count_before(&self.from));
        Ok(left)
    }

    /// Returns the first `count` members of the first entry, from where the front is on. If it
    /// fails, the front is as before.
    pub fn part(&mut self, count: u64) -> Result<Members, Memory>
        requires allowed { MayPart self.old count }
        requires room { HasRoom self.old (Part count) }
        ensures members { IfOk result (λ list. EmitsPart self.old count self.new list) }
        ensures same { OnErr result (self.new ≡ self.old) }
    {
        let mut part = self.left()?;
        let next = position_in(self.alloc, &part, count as u128)?;
        part.keep(count as u128);
        self.from = next;
        self.lines += u128::from(count);
        Ok(part)
    }
}
