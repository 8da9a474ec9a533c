ghost use Rattle.std.specs.Prelude.{◌≡◌, ◌≤◌, OnOk, IfOk};
ghost use Rattle.dd_model.specs.Request.{IsValid};
ghost use Rattle.dd_model.specs.Wanted.{IsCatalogue};
ghost use Rattle.dd_plain.specs.Adds.{Adds};
ghost use Rattle.dd_plain.specs.Trials.{tried, HasImages, HasTiles};

use crate::ascending_list::AscendingList;
use crate::leastness::is_least;
use crate::trials::{CHAMBERS, DEGREES, SIXES, Trial, is_accepted, symbol_of};
use crate::wanted::is_wanted;
use dd_model::{Memory, Request};
use dd_symbol::Connected;
use std::alloc::Global;

/// Puts a symbol into its place, if it belongs to the catalogue.
fn add_symbol(
    alloc: Global,
    q: &Request,
    symbol: Connected,
    list: &mut AscendingList,
) -> Result<(), Memory>
    requires { symbol.size ≤ 3 }
    ensures { OnOk result (Adds q.now (λ s. s ≡ symbol) list.old list.new) }
{
    if !is_wanted(alloc, q, &symbol)? {
        return Ok(());
    }
    if !is_least(alloc, &symbol)? {
        return Ok(());
    }
    list.insert(symbol)
}

/// Adds the symbol of a trial, if it has one that belongs to the catalogue.
fn add_trial(
    alloc: Global,
    q: &Request,
    trial: Trial,
    list: &mut AscendingList,
) -> Result<(), Memory>
    requires { trial.size ≤ 3 }
    ensures { OnOk result (Adds q.now (λ s. s ≡ tried trial) list.old list.new) }
{
    match symbol_of(alloc, trial)? {
        Some(symbol) => add_symbol(alloc, q, symbol, list),
        None => Ok(()),
    }
}

/// Adds the members with the tiles of a trial, by all lists of degrees of vertices.
fn add_tiles(
    alloc: Global,
    q: &Request,
    trial: Trial,
    list: &mut AscendingList,
) -> Result<(), Memory>
    requires { trial.size ≤ 3 }
    ensures { OnOk result (Adds q.now (HasTiles (tried trial)) list.old list.new) }
{
    // Each number of turns up to three divides 6, so without a symbol with these tiles and degrees
    // of 6 at the vertices there is none with these tiles at all.
    let with_sixes = Trial {
        m12: SIXES,
        ..trial
    };
    if !is_accepted(alloc, with_sixes)? {
        return Ok(());
    }
    for m12 in 0..(DEGREES.len() as u64).pow(trial.size) {
        add_trial(alloc, q, Trial { m12, ..trial }, list)?;
    }
    Ok(())
}

/// Adds the members with the involutions of a trial, by all lists of degrees.
fn add_images(
    alloc: Global,
    q: &Request,
    trial: Trial,
    list: &mut AscendingList,
) -> Result<(), Memory>
    requires { trial.size ≤ 3 }
    ensures { OnOk result (Adds q.now (HasImages (tried trial)) list.old list.new) }
{
    // In the same way, without a symbol whose degrees are all 6 there is none with these
    // involutions.
    let with_sixes = Trial {
        m01: SIXES,
        m12: SIXES,
        ..trial
    };
    if !is_accepted(alloc, with_sixes)? {
        return Ok(());
    }
    for m01 in 0..(DEGREES.len() as u64).pow(trial.size) {
        add_tiles(alloc, q, Trial { m01, ..trial }, list)?;
    }
    Ok(())
}

/// Adds the members of one size, by all triples of lists of chambers.
fn add_size(alloc: Global, q: &Request, size: u32, list: &mut AscendingList) -> Result<(), Memory>
    requires { size ≤ 3 }
    ensures { OnOk result (Adds q.now (λ s. s.size ≡ size) list.old list.new) }
{
    let lists = (CHAMBERS.len() as u64).pow(size);
    for number in 0..lists * lists * lists {
        let trial = Trial {
            size,
            s0: number % lists,
            s1: number / lists % lists,
            s2: number / lists / lists,
            m01: SIXES,
            m12: SIXES,
        };
        add_images(alloc, q, trial, list)?;
    }
    Ok(())
}

/// Returns the catalogue of a request of at most three chambers, ascending. It tries all triples of
/// lists of chambers, with all lists of degrees of tiles and of vertices. It fails only if an
/// allocation fails.
pub fn plain_catalogue(alloc: Global, q: &Request) -> Result<Vec<Connected>, Memory>
    requires valid { IsValid q.now }
    requires few { q.now.chambers ≤ 3 }
    ensures { IfOk result (λ list. IsCatalogue q.now list.items) }
{
    let mut list = AscendingList::new(alloc);
    for k in 0..q.chambers {
        add_size(alloc, q, k + 1, &mut list)?;
    }
    Ok(list.into_vec())
}
