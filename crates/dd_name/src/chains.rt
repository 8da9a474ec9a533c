ghost use Rattle.dd_model.specs.Small.{IsSmallSymbol};
ghost use Rattle.dd_name.specs.Rounds.{IsEnd, IsJoined};

use crate::flags::{Flag, other_index};
use dd_model::Pair;
use dd_symbol::Symbol;
use std::mem::swap;

/// The other end of the chain of a pair that begins at a flag. The two involutions lead in turn
/// from chamber to chamber, until one fixes a chamber.
pub(crate) fn other_end(symbol: &Symbol, pair: Pair, flag: Flag) -> Flag
    requires { IsEnd symbol.now pair flag }
    ensures joined { IsJoined symbol.now pair flag result }
    ensures symbol { IsSmallSymbol symbol.now }
{
    let mut chamber = flag.chamber;
    let mut came = flag.index;
    let mut index = other_index(pair, flag.index);
    for _step in 0..2 * symbol.size() {
        let image = symbol.op(index, chamber);
        if image == chamber {
            return Flag { chamber, index };
        }
        chamber = image;
        swap(&mut came, &mut index);
    }
    unreachable!()
}
