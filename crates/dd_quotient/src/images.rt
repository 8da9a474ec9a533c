ghost use Rattle.std.specs.Prelude.{IfOk, IfErr};
ghost use Rattle.dd_quotient.specs.MinimalImage.{IsMinimalImage, IsInOrder, AreAllSmall};
ghost use Rattle.dd_quotient.specs.Faults.{IsMinimalFault};

use crate::classes::alike_classes;
use crate::ranks::{degrees_of, images_of, ranks_of};
use dd_model::{Index, Map, Memory, Pair};
use dd_symbol::{Connected, MOST_CHAMBERS, Refusal, build};
use std::alloc::Global;

/// Why the workbench keeps no minimal image of a symbol.
#[derive(Debug, Clone, Copy, PartialEq, Eq)]
pub enum MinimalFault {
    /// A branching value v of the image is over 30: of tiles before vertices, at the least chamber.
    BranchingTooLarge { v: u32 },
    /// There was no room.
    Memory,
}

impl From<Memory> for MinimalFault {
    ghost use Rattle.dd_quotient.specs.declared.images.MinimalFault.TheVariants as fault;
    ghost use Rattle.std.specs.Prelude.{◌≡◌};

    ghost from_gives = { λ _ result. result ≡ fault.Memory };

    fn from(_: Memory) -> Self {
        MinimalFault::Memory
    }
}

/// The minimal image of a symbol, with the map onto it. Its chambers are the classes of alike
/// chambers, in the order of their least chambers.
pub fn minimal_image(alloc: Global, s: &Connected) -> Result<(Connected, Map), MinimalFault>
    ensures image { IfOk result (λ found. IsMinimalImage s.now found.0 found.1) }
    ensures order { IfOk result (λ found. IsInOrder s.now found.1) }
    ensures small { IfOk result (λ found. AreAllSmall found.0) }
    ensures why { IfErr result (λ fault. IsMinimalFault s.now fault) }
{
    let symbol = s.symbol();
    let classes = alike_classes(alloc, s)?;
    let all = ranks_of(alloc, &classes)?;
    let leaders = all.leaders.as_slice();
    let ranks = all.ranks.as_slice();
    let ops = [
        images_of(alloc, symbol, leaders, ranks, Index::Zero)?,
        images_of(alloc, symbol, leaders, ranks, Index::One)?,
        images_of(alloc, symbol, leaders, ranks, Index::Two)?,
    ];
    let m01 = degrees_of(alloc, symbol, leaders, Pair::Tile)?;
    let m12 = degrees_of(alloc, symbol, leaders, Pair::Vertex)?;
    match build(alloc, ops, m01, m12, MOST_CHAMBERS) {
        Ok(image) => Ok((image, Map::from_vec(all.ranks))),
        Err(why) => match why {
            Refusal::BranchingTooLarge { v, .. } => Err(MinimalFault::BranchingTooLarge { v }),
            Refusal::Memory => Err(MinimalFault::Memory),
            // An image of a connected symbol is one, so that nothing else can be wrong with it.
            _ => unreachable!(),
        },
    }
}
