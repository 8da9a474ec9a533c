ghost use Rattle.std.specs.Prelude.{◌≡◌, ◌≤◌, IfOk, length};
ghost use Rattle.dd_model.specs.Symbol.{IsChamber};
ghost use Rattle.dd_quotient.specs.Alike.{AreAlikeClasses, IsRefined, IsMet, signature};

use dd_model::{Index, Memory};
use dd_symbol::{Connected, Symbol};
use std::alloc::Global;
use std::collections::BTreeMap;

/// The degrees of a chamber, its class and the classes of its three neighbors.
type Signature = [u32; 6];

/// The first chamber that came with a signature; the given one, which is kept, where there was
/// none.
fn meet(
    firsts: &mut BTreeMap<Signature, u32>,
    signature: Signature,
    chamber: u32,
) -> Result<u32, Memory>
    ensures { IfOk result (λ first. IsMet firsts.old firsts.new signature chamber first) }
{
    if let Some(first) = firsts.get(&signature) {
        return Ok(*first);
    }
    firsts.insert(signature, chamber)?;
    Ok(chamber)
}

/// Returns what distinguishes a chamber from others at once.
fn signature_of(s: &Symbol, classes: &[u32], chamber: u32) -> Signature
    requires images { length classes.now ≡ s.now.size }
    requires chamber { IsChamber s.now chamber }
    ensures { result ≡ signature s.now classes.now chamber }
{
    [
        s.m01(chamber),
        s.m12(chamber),
        classes[chamber as usize - 1],
        classes[s.op(Index::Zero, chamber) as usize - 1],
        classes[s.op(Index::One, chamber) as usize - 1],
        classes[s.op(Index::Two, chamber) as usize - 1],
    ]
}

/// Puts chambers of one class into different classes if their neighbors are in different ones.
fn refined(alloc: Global, s: &Symbol, classes: &[u32]) -> Result<Vec<u32>, Memory>
    requires { length classes.now ≡ s.now.size }
    ensures { IfOk result (λ finer. IsRefined s.now classes.now finer.items) }
{
    let mut firsts = BTreeMap::new(alloc);
    let mut finer = Vec::with_capacity(alloc, s.size() as usize)?;
    for k in 0..s.size() {
        let signature = signature_of(s, classes, k + 1);
        finer.push(meet(&mut firsts, signature, k + 1)?)?;
    }
    Ok(finer)
}

/// Returns for each chamber the least one that is alike with it. The classes are refined by the
/// classes of the neighbors until no class is split any more.
pub(crate) fn alike_classes(alloc: Global, s: &Connected) -> Result<Vec<u32>, Memory>
    ensures { IfOk result (λ classes. AreAlikeClasses s.now classes.items) }
{
    let symbol = s.symbol();
    let mut classes = vec![in alloc; 1u32; symbol.size() as usize]?;
    loop {
        let finer = refined(alloc, symbol, &classes)?;
        if finer.as_slice() == classes.as_slice() {
            return Ok(classes);
        }
        classes = finer;
    }
}
