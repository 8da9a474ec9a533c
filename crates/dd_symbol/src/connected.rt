ghost use Rattle.std.specs.Prelude.{◌≡◌, IfOk};
ghost use Rattle.dd_model.specs.Isomorphic.{IsBijection, IsIsomorphism};
ghost use Rattle.dd_symbol.specs.Images.{with_degrees};

use crate::symbol::Symbol;
use crate::symbol_ref::SymbolRef;
use dd_model::Memory;
use std::alloc::Global;
use std::marker::Model;

/// A symbol in which some word leads from chamber 1 to each chamber.
#[derive(Drop)]
pub struct Connected {
    symbol: Symbol,
}

impl Model for Connected {
    ghost use Rattle.dd_model.specs.Symbol.{Symbol as Tiling};
    ghost use Rattle.dd_model.specs.Connected.{Connected as AllReached};
    ghost use Rattle.dd_model.specs.Small.{IsSmallSymbol};

    ghost Value = { Tiling };

    ghost view = { λ a. a.symbol };

    ghost invariant = { λ a. AllReached a.symbol × IsSmallSymbol a.symbol };
}

impl Connected {
    ghost use Rattle.dd_model.specs.Connected.{Connected as AllReached};
    ghost use Rattle.dd_model.specs.Small.{IsSmallSymbol};

    pub(crate) fn from_symbol(symbol: Symbol) -> Self
        requires { AllReached symbol }
        ensures { result ≡ symbol }
    {
        Connected { symbol }
    }

    /// The symbol without what is known of its connectedness.
    pub fn symbol(&self) -> &Symbol
        ensures same { result.now ≡ self.now }
        ensures symbol { IsSmallSymbol self.now }
        ensures connected { AllReached self.now }
    {
        &self.symbol
    }

    /// Returns the same symbol, for a reader of many of its numbers.
    pub fn lend(&self) -> SymbolRef<'_>
        ensures same { result ≡ self.now }
        ensures symbol { IsSmallSymbol self.now }
    {
        self.symbol.lend()
    }

    /// Chamber D becomes chamber map(D).
    pub fn renumber(&self, alloc: Global, map: &[u32]) -> Result<Connected, Memory>
        requires { IsBijection self.now.size map.now }
        ensures isomorphism { IfOk result (λ other. IsIsomorphism self.now other map.now) }
        ensures symbol { IfOk result (λ other. IsSmallSymbol other) }
    {
        Ok(Connected {
            symbol: self.symbol.renumber(alloc, map)?,
        })
    }

    /// The symbol with these involutions and other degrees of at most 255, which are known to be
    /// those of a symbol with branching values of at most 30. Nothing is tested.
    pub fn with_known_degrees(
        &self,
        alloc: Global,
        m01: &[u8],
        m12: &[u8],
    ) -> Result<Connected, Memory>
        requires { IsSmallSymbol (with_degrees self.now m01.now m12.now) }
        ensures { IfOk result (λ it. it ≡ with_degrees self.now m01.now m12.now) }
    {
        Ok(Connected {
            symbol: self.symbol.with_known_degrees(alloc, m01, m12)?,
        })
    }

    /// An equal symbol.
    pub fn try_copy(&self, alloc: Global) -> Result<Connected, Memory>
        ensures { IfOk result (λ copy. copy ≡ self.now) }
    {
        Ok(Connected {
            symbol: self.symbol.try_copy(alloc)?,
        })
    }
}
