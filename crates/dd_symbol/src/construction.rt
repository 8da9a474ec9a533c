ghost use Rattle.std.specs.Prelude.{◌≡◌, ◌≢◌, ◌≤◌, length, IfOk, IfErr, OnOk, MatchOption};
ghost use Rattle.dd_symbol.specs.Building.{given, HaveOneLength, IsAccepted, IsBuilt, IsConnectedSymbol};
ghost use Rattle.dd_symbol.specs.Images.{with_degrees};
ghost use Rattle.dd_symbol.specs.Conditions.{AreConnected};
ghost use Rattle.dd_symbol.specs.Refusals.{IsRefused, IsFault};
ghost use Rattle.dd_model.specs.Small.{IsSmallSymbol, most_chambers};

use crate::code_table::CodeTable;
use crate::connected::Connected;
use crate::involutions::{ImageLists, Involutions};
use crate::refusals::Refusal;
use crate::symbol::{MOST_CHAMBERS, Symbol};
use dd_model::Memory;
use std::alloc::Global;

impl CodeTable {
    ghost use Rattle.dd_symbol.specs.Table.{symbol_of};
    ghost use Rattle.dd_model.specs.Connected.{Connected as AllReached};

    /// Refuses what is not connected, or where s0 s2 differs from s2 s0. Degrees are not looked at.
    fn check_involutions(&self, alloc: Global) -> Result<(), Refusal>
        ensures connected { OnOk result (AreConnected (symbol_of self.now)) }
        ensures why { IfErr result (λ why. IsFault (symbol_of self.now) why) }
    {
        self.involutions.check_commuting()?;
        self.involutions.check_connected(alloc)?;
        Ok(())
    }

    /// Refuses what is no connected symbol with branching values of at most 30.
    fn check(&self, alloc: Global) -> Result<(), Refusal>
        ensures symbol { OnOk result (IsSmallSymbol (symbol_of self.now)) }
        ensures connected { OnOk result (AllReached (symbol_of self.now)) }
        ensures why { IfErr result (λ why. IsFault (symbol_of self.now) why) }
    {
        self.check_involutions(alloc)?;
        self.check_degrees(alloc)
    }
}

/// The connected symbol with these involutions and degrees, if they are those of one with branching
/// values of at most 30; else the first cause why not. `Empty` comes where there are no chambers.
pub fn build_on(
    alloc: Global,
    involutions: Involutions,
    m01: Vec<u32>,
    m12: Vec<u32>,
) -> Result<Connected, Refusal>
    requires tiles { length m01.items ≡ involutions.size }
    requires vertices { length m12.items ≡ involutions.size }
    ensures symbol { IfOk result (λ it. it ≡ with_degrees involutions m01.items m12.items) }
    ensures accepted { IfOk result (λ it. IsConnectedSymbol it) }
    ensures refused { IfErr result (λ why. why ≢ Refusal.Memory
        → IsConnectedSymbol (with_degrees involutions m01.items m12.items) → ⊥) }
    ensures why { IfErr result (λ why. IsFault (with_degrees involutions m01.items m12.items) why) }
{
    if involutions.size() == 0 {
        return Err(Refusal::Empty);
    }
    let table = CodeTable {
        involutions: involutions.followed_by(alloc, &m01, &m12)?,
    };
    table.check(alloc)?;
    Ok(Connected::from_symbol(Symbol::from_table(table)))
}

/// The connected symbol with these involutions and degrees, which are known to be those of one
/// where the involutions are connected and s0 s2 is s2 s0; None where they are not. Degrees are not
/// tested.
pub fn build_fitting(
    alloc: Global,
    involutions: Involutions,
    m01: Vec<u32>,
    m12: Vec<u32>,
) -> Result<Option<Connected>, Memory>
    requires some { 1 ≤ involutions.size }
    requires tiles { length m01.items ≡ involutions.size }
    requires vertices { length m12.items ≡ involutions.size }
    requires fitting { AreConnected (with_degrees involutions m01.items m12.items)
        → IsSmallSymbol (with_degrees involutions m01.items m12.items) }
    ensures { IfOk result (λ found. MatchOption found
        (IsConnectedSymbol (with_degrees involutions m01.items m12.items) → ⊥)
        (IsBuilt (with_degrees involutions m01.items m12.items))) }
{
    let table = CodeTable {
        involutions: involutions.followed_by(alloc, &m01, &m12)?,
    };
    match table.check_involutions(alloc) {
        Ok(()) => Ok(Some(Connected::from_symbol(Symbol::from_table(table)))),
        Err(why) => match why {
            Refusal::Memory => Err(Memory),
            _ => Ok(None),
        },
    }
}

/// The connected symbol with these involutions and degrees of at most 255, which are known to be
/// those of one with branching values of at most 30. Nothing is tested.
pub fn build_known(involutions: Involutions, m01: &[u8], m12: &[u8]) -> Result<Connected, Memory>
    requires { IsConnectedSymbol (with_degrees involutions m01.now m12.now) }
    ensures { IfOk result (λ it. it ≡ with_degrees involutions m01.now m12.now) }
{
    let table = CodeTable {
        involutions: involutions.followed_by_bytes(m01, m12)?,
    };
    Ok(Connected::from_symbol(Symbol::from_table(table)))
}

/// The connected symbol with these lists, if they have at most `limit` chambers and are one with
/// branching values of at most 30; else the first cause why not.
pub fn build(
    alloc: Global,
    ops: [Vec<u32>; 3],
    m01: Vec<u32>,
    m12: Vec<u32>,
    limit: u32,
) -> Result<Connected, Refusal>
    requires lengths { HaveOneLength (given ops m01.items m12.items) }
    requires limit { limit ≤ most_chambers }
    ensures symbol { IfOk result (λ connected. connected ≡ given ops m01.items m12.items) }
    ensures accepted { IfOk result (λ _. IsAccepted limit (given ops m01.items m12.items)) }
    ensures refused { IfErr result (λ why.
        why ≢ Refusal.Memory → IsAccepted limit (given ops m01.items m12.items) → ⊥) }
    ensures why { IfErr result (λ why. IsRefused limit (given ops m01.items m12.items) why) }
{
    let [s0, s1, s2] = &ops;
    let n = s0.len();
    if n > limit as usize {
        return Err(Refusal::TooManyChambers { n });
    }
    let involutions = Involutions::from_lists(alloc, &ImageLists { s0, s1, s2 })?;
    build_on(alloc, involutions, m01, m12)
}

/// The connected symbol with these lists, which are known to be those of one with branching values
/// of at most 30.
pub fn build_known_lists(
    alloc: Global,
    ops: [Vec<u32>; 3],
    m01: Vec<u32>,
    m12: Vec<u32>,
) -> Result<Connected, Memory>
    requires { IsConnectedSymbol (given ops m01.items m12.items) }
    ensures { IfOk result (λ it. it ≡ given ops m01.items m12.items) }
{
    match build(alloc, ops, m01, m12, MOST_CHAMBERS) {
        Ok(symbol) => Ok(symbol),
        Err(why) => match why {
            Refusal::Memory => Err(Memory),
            _ => unreachable!(),
        },
    }
}
