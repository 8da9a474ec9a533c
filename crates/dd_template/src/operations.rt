ghost use Rattle.std.specs.Prelude.{◌*◌, ◌≤◌, ◌≡◌, OnOk, IfOk, IfErr};
ghost use Rattle.dd_template.specs.Applying.{IsFaultOf};
ghost use Rattle.dd_template.specs.Lawful.{IsLawful};
ghost use Rattle.dd_template.specs.Made.{made};
ghost use Rattle.dd_template.specs.Named.{table_of_operation};
ghost use Rattle.dd_template.specs.declared.operations.Operation.{Operation as Named};

use crate::application::{ApplyFault, apply};
use crate::constants::{AMBO, CHAMFER, TRUNCATE};
use dd_symbol::Connected;
use std::alloc::Global;

/// A derived tiling.
#[derive(Debug, Clone, Copy, PartialEq, Eq)]
pub enum Operation {
    /// A vertex on each edge.
    Ambo,
    /// Each vertex cut off.
    Truncate,
    /// Each edge made a hexagon.
    Chamfer,
}

impl Operation {
    /// The symbol that the table of the operation makes of a symbol, if it has at most 1,024
    /// chambers. Chambers are numbered as by `apply`.
    pub fn apply(self, alloc: Global, symbol: &Connected) -> Result<Connected, ApplyFault>
        ensures made { IfOk result (λ derived.
            derived ≡ made (table_of_operation self) symbol.now) }
        ensures within { OnOk result (symbol.now.size * (table_of_operation self).parts ≤ 1024) }
        ensures why { IfErr result (λ why. IsFaultOf (table_of_operation self) symbol.now why) }
    {
        match self {
            Operation::Ambo => apply(alloc, &AMBO, symbol),
            Operation::Truncate => apply(alloc, &TRUNCATE, symbol),
            Operation::Chamfer => apply(alloc, &CHAMFER, symbol),
        }
    }
}

/// The table of each operation is lawful.
pub fn operations_are_lawful()
    ensures { (operation : Named) → IsLawful (table_of_operation operation) }
{}
