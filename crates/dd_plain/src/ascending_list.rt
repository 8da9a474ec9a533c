ghost use Rattle.std.specs.Prelude.{◌≡◌, ◌↔◌, ◌⊎◌, ◌<◌, ◌≤◌, OnOk, IfOk, IfErr, length, take, drop};
ghost use Rattle.std.specs.List.{Contains, AllByRecursion};
ghost use Rattle.dd_model.specs.Symbol.{Symbol as Tiling};
ghost use Rattle.dd_model.specs.Code.{IsBelow};
ghost use Rattle.dd_model.specs.Wanted.{IsAscending};

use dd_model::Memory;
use dd_symbol::{Connected, cmp_code};
use std::alloc::Global;
use std::cmp::Ordering;
use std::marker::Model;

/// Where a symbol stands in an ascending list, or else where it belongs.
fn place_of(list: &[Connected], symbol: &Connected) -> Result<usize, usize>
    requires { IsAscending list.now }
    ensures found { IfOk result (λ _. Contains list.now symbol.now) }
    ensures within { IfErr result (λ k. k ≤ length list.now) }
    ensures below { IfErr result (λ k.
        AllByRecursion (λ y. IsBelow y symbol.now) (take k list.now)) }
    ensures above { IfErr result (λ k. AllByRecursion (IsBelow symbol.now) (drop k list.now)) }
{
    for (k, other) in list.iter().enumerate() {
        match cmp_code(other.symbol(), symbol.symbol()) {
            Ordering::Less => {}
            Ordering::Equal => return Ok(k),
            Ordering::Greater => return Err(k),
        }
    }
    Err(list.len())
}

/// Symbols in ascending order, each once.
#[derive(Drop)]
pub(crate) struct AscendingList {
    list: Vec<Connected>,
}

impl Model for AscendingList {
    ghost use Rattle.std.specs.Prelude.{List};
    ghost use Rattle.dd_model.specs.Symbol.{Symbol as Tiling};
    ghost use Rattle.dd_model.specs.Wanted.{IsAscending};

    ghost Value = { List Tiling };

    ghost view = { λ a. a.list.items };

    ghost invariant = { λ a. IsAscending a.list.items };
}

impl AscendingList {
    ghost use Rattle.std.specs.Prelude.{[]};

    /// No symbols.
    pub fn new(alloc: Global) -> AscendingList
        ensures { result ≡ [] }
    {
        AscendingList {
            list: Vec::new(alloc),
        }
    }

    /// Puts a symbol into its place, unless it is there.
    pub fn insert(&mut self, symbol: Connected) -> Result<(), Memory>
        ensures { OnOk result
            ((s : Tiling) → Contains self.new s ↔ (Contains self.old s ⊎ (s ≡ symbol))) }
    {
        match place_of(&self.list, &symbol) {
            Ok(_) => Ok(()),
            Err(k) => {
                self.list.insert(k, symbol)?;
                Ok(())
            }
        }
    }

    /// The symbols.
    pub fn into_vec(self) -> Vec<Connected>
        ensures same { result.items ≡ self }
        ensures ascending { IsAscending result.items }
    {
        self.list
    }
}
