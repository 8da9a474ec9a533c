ghost use Rattle.std.specs.Prelude.{◌≡◌, ◌*◌, ◌≤◌, IfOk, IfErr, OnOk};
ghost use Rattle.dd_template.specs.Table.{table_of};
ghost use Rattle.dd_opword.specs.Composed.{composed};
ghost use Rattle.dd_opword.specs.Meaning.{IsMadeBy, IsWordFault, meaning, parts_of, table_of_letter};
ghost use Rattle.dd_opword.specs.Together.{GoTogether, MayGoFirst};
ghost use Rattle.dd_opword.specs.Words.{letters_of};

use crate::composition::compose;
use crate::letters::Letter;
use crate::words::OpWord;
use dd_symbol::Connected;
use dd_template::{AMBO, ApplyFault, CHAMFER, DUAL, TRUNCATE, Template, apply};
use std::alloc::Global;

/// Returns what a word makes of a symbol, if it has at most 1,024 chambers. The tables of the
/// letters are composed, and the symbol is made once.
///
/// # Errors
///
/// `TooManyChambers` exactly if the size times the number of parts is over 1,024.
pub fn apply_word(alloc: Global, word: &OpWord, symbol: &Connected) -> Result<Connected, ApplyFault>
    ensures made { IfOk result (λ derived. derived ≡ meaning (letters_of word.now) symbol.now) }
    ensures within { OnOk result (symbol.now.size * parts_of (letters_of word.now) ≤ 1024) }
    ensures why { IfErr result (λ why. IsWordFault word.now symbol.now why) }
{
    match *word {
        OpWord::One(letter) => apply_letter(alloc, letter, symbol),
        OpWord::Two(first, second) => apply_two(alloc, first, second, symbol),
        OpWord::Three(first, second, third) => apply_three(alloc, first, second, third, symbol),
    }
}

/// Returns what the table of a letter makes of a symbol.
fn apply_letter(alloc: Global, letter: Letter, symbol: &Connected) -> Result<Connected, ApplyFault>
    ensures { IsMadeBy (table_of_letter letter) symbol.now result }
{
    match letter {
        Letter::Dual => apply(alloc, &DUAL, symbol),
        Letter::Ambo => apply(alloc, &AMBO, symbol),
        Letter::Truncate => apply(alloc, &TRUNCATE, symbol),
        Letter::Chamfer => apply(alloc, &CHAMFER, symbol),
    }
}

/// Returns what two tables of K and of L parts, the second first, make of a symbol. M is the number
/// of their parts.
fn apply_both<const K: usize, const L: usize, const M: usize>(
    alloc: Global,
    outer: &Template<K>,
    inner: &Template<L>,
    symbol: &Connected,
) -> Result<Connected, ApplyFault>
    requires together { GoTogether (table_of outer.now) (table_of inner.now) }
    requires parts { M ≡ L * K }
    ensures { IsMadeBy (composed (table_of outer.now) (table_of inner.now)) symbol.now result }
{
    apply(alloc, &compose::<K, L, M>(outer, inner), symbol)
}

/// Returns what a letter makes of what an inner table of L parts makes of a symbol. A, T and C are
/// the numbers of parts that the table has with `a`, `t` and `c`.
fn apply_after<const L: usize, const A: usize, const T: usize, const C: usize>(
    alloc: Global,
    letter: Letter,
    inner: &Template<L>,
    symbol: &Connected,
) -> Result<Connected, ApplyFault>
    requires first { MayGoFirst (table_of inner.now) }
    requires ambo { A ≡ L * 2 }
    requires truncate { T ≡ L * 3 }
    requires chamfer { C ≡ L * 4 }
    ensures { IsMadeBy (composed (table_of_letter letter) (table_of inner.now)) symbol.now result }
{
    match letter {
        Letter::Dual => apply_both::<1, L, L>(alloc, &DUAL, inner, symbol),
        Letter::Ambo => apply_both::<2, L, A>(alloc, &AMBO, inner, symbol),
        Letter::Truncate => apply_both::<3, L, T>(alloc, &TRUNCATE, inner, symbol),
        Letter::Chamfer => apply_both::<4, L, C>(alloc, &CHAMFER, inner, symbol),
    }
}

/// Returns what the first of two letters makes of what the second makes of a symbol.
fn apply_two(
    alloc: Global,
    first: Letter,
    second: Letter,
    symbol: &Connected,
) -> Result<Connected, ApplyFault>
    ensures { IsMadeBy (composed (table_of_letter first) (table_of_letter second))
        symbol.now result }
{
    match second {
        Letter::Dual => apply_after::<1, 2, 3, 4>(alloc, first, &DUAL, symbol),
        Letter::Ambo => apply_after::<2, 4, 6, 8>(alloc, first, &AMBO, symbol),
        Letter::Truncate => apply_after::<3, 6, 9, 12>(alloc, first, &TRUNCATE, symbol),
        Letter::Chamfer => apply_after::<4, 8, 12, 16>(alloc, first, &CHAMFER, symbol),
    }
}

/// Returns what the first of two letters makes of what the second makes of what an inner table of L
/// parts makes of a symbol. The inner table is that of a letter. L2 is twice L, L3 is three times
/// L, and so on.
fn apply_both_after<
    const L: usize,
    const L2: usize,
    const L3: usize,
    const L4: usize,
    const L6: usize,
    const L8: usize,
    const L9: usize,
    const L12: usize,
    const L16: usize,
>(
    alloc: Global,
    first: Letter,
    second: Letter,
    inner: &Template<L>,
    symbol: &Connected,
) -> Result<Connected, ApplyFault>
    requires third { (third : Letter) × (table_of inner.now ≡ table_of_letter third) }
    requires low { (L2 ≡ L * 2) × (L3 ≡ L * 3) × (L4 ≡ L * 4) × (L6 ≡ L * 6) }
    requires high { (L8 ≡ L * 8) × (L9 ≡ L * 9) × (L12 ≡ L * 12) × (L16 ≡ L * 16) }
    ensures { IsMadeBy (composed (table_of_letter first)
        (composed (table_of_letter second) (table_of inner.now))) symbol.now result }
{
    match second {
        Letter::Dual => {
            let both = compose::<1, L, L>(&DUAL, inner);
            apply_after::<L, L2, L3, L4>(alloc, first, &both, symbol)
        }
        Letter::Ambo => {
            let both = compose::<2, L, L2>(&AMBO, inner);
            apply_after::<L2, L4, L6, L8>(alloc, first, &both, symbol)
        }
        Letter::Truncate => {
            let both = compose::<3, L, L3>(&TRUNCATE, inner);
            apply_after::<L3, L6, L9, L12>(alloc, first, &both, symbol)
        }
        Letter::Chamfer => {
            let both = compose::<4, L, L4>(&CHAMFER, inner);
            apply_after::<L4, L8, L12, L16>(alloc, first, &both, symbol)
        }
    }
}

/// Returns what the first of three letters makes of what the other two make of a symbol.
fn apply_three(
    alloc: Global,
    first: Letter,
    second: Letter,
    third: Letter,
    symbol: &Connected,
) -> Result<Connected, ApplyFault>
    ensures { IsMadeBy (composed (table_of_letter first)
        (composed (table_of_letter second) (table_of_letter third))) symbol.now result }
{
    match third {
        Letter::Dual => {
            apply_both_after::<1, 2, 3, 4, 6, 8, 9, 12, 16>(alloc, first, second, &DUAL, symbol)
        }
        Letter::Ambo => {
            apply_both_after::<2, 4, 6, 8, 12, 16, 18, 24, 32>(alloc, first, second, &AMBO, symbol)
        }
        Letter::Truncate => apply_both_after::<3, 6, 9, 12, 18, 24, 27, 36, 48>(
            alloc, first, second, &TRUNCATE, symbol,
        ),
        Letter::Chamfer => apply_both_after::<4, 8, 12, 16, 24, 32, 36, 48, 64>(
            alloc, first, second, &CHAMFER, symbol,
        ),
    }
}
