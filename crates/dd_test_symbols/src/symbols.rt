ghost use Rattle.std.specs.Prelude.{◌≡◌};

use dd_symbol::{Connected, Refusal, build};
use std::alloc::Global;
use std::process::Abort;

fn list<R: Abort + Alloc<A = Global>>(rt: &R, numbers: &[u32]) -> Vec<u32>
    ensures { result.items ≡ numbers.now }
{
    Vec::from_slice(rt.alloc(), numbers).expect(rt, "a list")
}

/// The symbol of five lists of one length, or why they are refused.
pub(crate) fn built<R: Abort + Alloc<A = Global>>(
    rt: &R,
    ops: [&[u32]; 3],
    m01: &[u32],
    m12: &[u32],
    limit: u32,
) -> Result<Connected, Refusal> {
    let [s0, s1, s2] = ops;
    let n = s0.len();
    let lengths = [s1.len(), s2.len(), m01.len(), m12.len()];
    assert!(rt; lengths == [n; 4] && limit <= 16384);
    let ops = [list(rt, s0), list(rt, s1), list(rt, s2)];
    build(rt.alloc(), ops, list(rt, m01), list(rt, m12), limit)
}

/// The symbol of five lists that are not refused.
pub(crate) fn made<R: Abort + Alloc<A = Global>>(
    rt: &R,
    ops: [&[u32]; 3],
    m01: &[u32],
    m12: &[u32],
) -> Connected {
    built(rt, ops, m01, m12, 1024).expect(rt, "five lists of a connected symbol")
}
