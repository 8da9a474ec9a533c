use crate::chains::other_end;
use crate::flags::{Flag, other_pair};
use dd_model::Pair;
use dd_symbol::Symbol;

/// A flag of a boundary, the pair of the chain that joins it to the next, and the value of that
/// chain.
#[derive(Debug, Clone, Copy, PartialEq, Eq)]
pub struct Joint {
    /// The flag at which the chain begins.
    pub flag: Flag,
    /// The pair of the chain.
    pub by: Pair,
    /// The branching value of the chain.
    pub value: u32,
}

impl Joint {
    ghost use Rattle.std.specs.Prelude.{◌≡◌};
    ghost use Rattle.dd_model.specs.Small.{IsSmallSymbol};
    ghost use Rattle.dd_name.specs.Rounds.{IsEnd, IsJoint, IsLinked};

    /// The joint at a flag by a pair.
    pub fn at(symbol: &Symbol, flag: Flag, by: Pair) -> Joint
        requires { IsEnd symbol.now by flag }
        ensures joint { IsJoint symbol.now result }
        ensures flag { result.flag ≡ flag }
        ensures by { result.by ≡ by }
    {
        let value = symbol.branching(by, flag.chamber);
        Joint { flag, by, value }
    }

    /// The next joint round the boundary.
    pub fn next(self, symbol: &Symbol) -> Joint
        requires { IsJoint symbol.now self }
        ensures linked { IsLinked symbol.now self result }
        ensures joint { IsJoint symbol.now result }
        ensures symbol { IsSmallSymbol symbol.now }
    {
        let flag = other_end(symbol, self.by, self.flag);
        Joint::at(symbol, flag, other_pair(self.by, flag.index))
    }
}
