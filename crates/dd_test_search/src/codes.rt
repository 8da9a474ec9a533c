use dd_member_lists::SymbolList;
use dd_symbol::Symbol;
use std::alloc::Global;
use std::process::Abort;

fn is_code<R: Abort + Alloc<A = Global>>(rt: &R, symbol: &Symbol, expected: &[u32]) -> bool {
    let code = symbol.code(rt.alloc()).expect(rt, "a code");
    code.as_slice() == expected
}

/// Returns whether the code of the symbol at a place of a list is this.
pub(crate) fn has_code<R: Abort + Alloc<A = Global>>(
    rt: &R,
    symbols: &SymbolList,
    place: usize,
    expected: &[u32],
) -> bool {
    assert!(rt; place < symbols.len());
    let symbol = symbols.all().copy(rt.alloc(), place).expect(rt, "a copy");
    is_code(rt, symbol.symbol(), expected)
}

/// Returns whether the codes of symbols are these, in this order.
pub(crate) fn have_codes<const N: usize, R: Abort + Alloc<A = Global>>(
    rt: &R,
    symbols: &SymbolList,
    expected: &[[u32; N]],
) -> bool {
    symbols.len() == expected.len()
        && expected.iter().enumerate().all(|(place, code)| has_code(
            rt,
            symbols,
            place,
            code.as_slice(),
        ))
}
