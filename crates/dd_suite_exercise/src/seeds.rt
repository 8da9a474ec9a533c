ghost use Rattle.std.specs.Prelude.{◌≤◌, length, IfOk};
ghost use Rattle.dd_suite_exercise.specs.Seeds.{AreSeeds};

use dd_model::{Memory, Request};
use dd_plain::plain_catalogue;
use dd_symbol::Connected;
use std::alloc::Global;

/// The symbols with which items begin: those of `catalogue 2`.
pub(crate) fn seeds(alloc: Global) -> Result<Vec<Connected>, Memory>
    ensures seeds { IfOk result (λ seeds. AreSeeds seeds.items) }
{
    plain_catalogue(alloc, &Request::up_to(2))
}
