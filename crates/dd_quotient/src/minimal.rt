ghost use Rattle.std.specs.Prelude.{◌↔◌, IsTrue, IfOk};
ghost use Rattle.dd_model.specs.Minimal.{Minimal};

use crate::classes::alike_classes;
use dd_model::Memory;
use dd_symbol::Connected;
use std::alloc::Global;

/// Returns whether alike chambers are equal: whether no two chambers agree in the degrees at all
/// words.
pub fn is_minimal(alloc: Global, s: &Connected) -> Result<bool, Memory>
    ensures { IfOk result (λ yes. IsTrue yes ↔ Minimal s.now) }
{
    let classes = alike_classes(alloc, s)?;
    for k in 0..s.symbol().size() {
        let chamber = k + 1;
        if classes[k as usize] != chamber {
            return Ok(false);
        }
    }
    Ok(true)
}
