ghost use Rattle.std.specs.Prelude.{◌≡◌, IfOk, MatchOption, IsSome, true};
ghost use Rattle.dd_ports.specs.declared.store.StoreFault.TheVariants.{Failed};
ghost use Rattle.dd_ports.specs.Causes.{HasCause, StaysSure};
ghost use Rattle.dd_suite_tasks.specs.Held.{AreFetched, HoldsMore};
ghost use Rattle.dd_suite_tasks.specs.Merges.{IsFetchedFront};
ghost use Rattle.dd_suite_tasks.specs.Outside.{KeepsTexts};

use dd_ports::{Fetched, Store, StoreFault};
use std::alloc::Global;

/// Returns all that a name holds, or None if that is more than `most` bytes.
pub fn fetch_all<S: Store>(
    alloc: Global,
    name: &str,
    most: usize,
    store: &mut S,
) -> Result<Option<Vec<u8>>, StoreFault>
    ensures bytes { IfOk result (λ bytes. MatchOption bytes
        (HoldsMore (S.tells store.old) (S.held store.old name.now) most)
        (λ bytes. AreFetched (S.tells store.old) (S.held store.old name.now) bytes.items)) }
    ensures same { KeepsTexts S.Store store.old store.new }
    ensures cause { HasCause Failed (S.faults store.old) (S.faults store.new) result }
    ensures sure { S.sure store.old ≡ true → S.sure store.new ≡ true }
    ensures passes { S.sure store.old ≡ true → IsSome (S.held store.old name.now)
        → StaysSure Failed (S.faults store.old) (S.faults store.new) (S.sure store.new) result }
{
    let mut bytes = Vec::new(alloc);
    match store.fetch(name, &mut bytes, most)? {
        Fetched::Whole => Ok(Some(bytes)),
        Fetched::Longer => Ok(None),
    }
}

/// Returns all that a name holds, or only the first `most` bytes of it if there are more.
pub fn fetch_front<S: Store>(
    alloc: Global,
    name: &str,
    most: usize,
    store: &mut S,
) -> Result<Vec<u8>, StoreFault>
    ensures front { IfOk result (λ front.
        IsFetchedFront (S.tells store.old) (S.held store.old name.now) most front.items) }
    ensures same { KeepsTexts S.Store store.old store.new }
    ensures cause { HasCause Failed (S.faults store.old) (S.faults store.new) result }
    ensures sure { S.sure store.old ≡ true → S.sure store.new ≡ true }
    ensures passes { S.sure store.old ≡ true → IsSome (S.held store.old name.now)
        → StaysSure Failed (S.faults store.old) (S.faults store.new) (S.sure store.new) result }
{
    let mut bytes = Vec::new(alloc);
    store.fetch(name, &mut bytes, most)?;
    Ok(bytes)
}
