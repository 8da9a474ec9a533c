ghost use Rattle.std.specs.Prelude.{◌≡◌, ℕ, ◌<◌, ◌≤◌, ◌^◌, ◌↔◌, IsTrue, IfOk, MatchOption, length};
ghost use Rattle.dd_model.specs.Isomorphic.{IsBijection};
ghost use Rattle.dd_model.specs.Symbol.{item};
ghost use Rattle.dd_symbol.specs.Maps.{AreInverse};
ghost use Rattle.dd_model.specs.Small.{most_chambers};

use dd_model::Memory;
use std::alloc::Global;

/// The item of a list that belongs to a chamber.
pub fn item(list: &[u32], chamber: u32) -> u32
    requires low { 1 ≤ chamber }
    requires high { chamber ≤ length list.now }
    ensures { result ≡ item list.now chamber }
{
    list[chamber as usize - 1]
}

/// The map that undoes a map of the chambers, if there is one.
pub fn inverse(alloc: Global, map: &[u32]) -> Result<Option<Vec<u32>>, Memory>
    requires { length map.now ≤ most_chambers }
    ensures { IfOk result (λ found. MatchOption found
        (¬ (IsBijection (length map.now) map.now))
        (λ back. AreInverse (length map.now) map.now back.items)) }
{
    let n = map.len() as u32;
    let mut back = vec![in alloc; 0u32; map.len()]?;
    for k in 0..n {
        let image = item(map, k + 1);
        if image < 1 || image > n {
            return Ok(None);
        }
        back[image as usize - 1] = k + 1;
    }
    for j in 0..n {
        let chamber = j + 1;
        let image = item(map, chamber);
        if item(&back, image) != chamber {
            return Ok(None);
        }
        if item(&back, chamber) == 0 {
            return Ok(None);
        }
    }
    Ok(Some(back))
}

/// Returns whether a list is a bijection of the chambers.
pub fn is_bijection(alloc: Global, map: &[u32]) -> Result<bool, Memory>
    requires { length map.now ≤ most_chambers }
    ensures { IfOk result (λ yes. IsTrue yes ↔ IsBijection (length map.now) map.now) }
{
    match inverse(alloc, map)? {
        Some(_) => Ok(true),
        None => Ok(false),
    }
}
