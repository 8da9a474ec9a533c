ghost use Rattle.std.specs.Prelude.{◌≡◌, ◌<◌, ◌≤◌, ◌*◌, IfOk};
ghost use Rattle.dd_template.specs.Made.{made};
ghost use Rattle.dd_template.specs.Named.{table_of_operation};
ghost use Rattle.dd_suite_exercise.specs.Choices.{change_at, changed};

use dd_model::Memory;
use dd_quotient::dual;
use dd_symbol::Connected;
use dd_template::{ApplyFault, Operation};
use std::alloc::Global;

/// What may be made of a symbol first.
#[derive(Clone, Copy, Debug, PartialEq, Eq)]
pub(crate) enum Change {
    /// The symbol itself.
    Nothing,
    /// Its dual.
    Dual,
    /// A derived tiling.
    Derived(Operation),
}

/// The changes in the order of the draws.
const CHANGES: [Change; 5] = [
    Change::Nothing,
    Change::Dual,
    Change::Derived(Operation::Ambo),
    Change::Derived(Operation::Truncate),
    Change::Derived(Operation::Chamfer),
];

impl Change {
    /// The change that a draw picks.
    pub fn picked_by(draw: usize) -> Change
        requires { draw < 5 }
        ensures { result ≡ change_at draw }
    {
        CHANGES[draw]
    }

    /// The symbol after the change.
    pub fn made_of(self, alloc: Global, s: &Connected) -> Result<Connected, Memory>
        requires { s.now.size ≤ 256 }
        ensures { IfOk result (λ made. made ≡ changed self s.now) }
    {
        match self {
            Change::Nothing => Ok(s.try_copy(alloc)?),
            Change::Dual => dual(alloc, s),
            Change::Derived(operation) => derived(alloc, operation, s),
        }
    }
}

/// The derived tiling of a symbol that is small enough for each operation.
fn derived(alloc: Global, operation: Operation, s: &Connected) -> Result<Connected, Memory>
    requires { s.now.size ≤ 256 }
    ensures { IfOk result (λ derived. derived ≡ made (table_of_operation operation) s.now) }
{
    match operation.apply(alloc, s) {
        Ok(derived) => Ok(derived),
        Err(ApplyFault::Memory) => Err(Memory),
        // A chamber has at most four parts.
        Err(ApplyFault::TooManyChambers { n: _ }) => unreachable!(),
    }
}
