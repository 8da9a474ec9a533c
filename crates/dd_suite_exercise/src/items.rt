ghost use Rattle.std.specs.Prelude.{◌≡◌, ◌≤◌, ◌+◌, IfOk};
ghost use Rattle.dd_suite_exercise.specs.Draws.{after_draws};
ghost use Rattle.dd_suite_exercise.specs.Seeds.{AreSeeds};
ghost use Rattle.dd_suite_exercise.specs.Items.{IsCover, IsItem, after_item};

use crate::changes::Change;
use crate::coverings::Covering;
use crate::draws::Generator;
use crate::renumbering::renumbering;
use dd_canon::least_form;
use dd_model::Memory;
use dd_symbol::Connected;
use std::alloc::Global;

/// The next item: a cover, renumbered, in its least form.
pub(crate) fn next_item(
    alloc: Global,
    seeds: &[Connected],
    generator: &mut Generator,
) -> Result<Connected, Memory>
    requires { AreSeeds seeds.now }
    ensures item { IfOk result (λ form. IsItem seeds.now generator.old form) }
    ensures draws { IfOk result (λ form. generator.new ≡ after_item generator.old form) }
{
    let cover = next_cover(alloc, seeds, generator)?;
    let list = renumbering(alloc, cover.symbol().size(), generator)?;
    let renumbered = cover.renumber(alloc, &list)?;
    Ok(least_form(alloc, &renumbered)?)
}

/// The next cover: draws pick a seed, two changes of it, and what covers the result.
fn next_cover(
    alloc: Global,
    seeds: &[Connected],
    generator: &mut Generator,
) -> Result<Connected, Memory>
    requires { AreSeeds seeds.now }
    ensures cover { IfOk result (λ cover. IsCover seeds.now generator.old cover) }
    ensures draws { IfOk result (λ _. generator.new ≡ after_draws 4 generator.old) }
{
    let seed = &seeds[generator.below(seeds.len())];
    let first = Change::picked_by(generator.below(5)).made_of(alloc, seed)?;
    let second = Change::picked_by(generator.below(5)).made_of(alloc, &first)?;
    Covering::picked_by(generator.below(3)).of(alloc, &second)
}
