ghost use Rattle.std.specs.Prelude.{IfOk, IfErr};
ghost use Rattle.std.specs.List.{AllByRecursion};
ghost use Rattle.dd_model.specs.Flat.{Flat};
ghost use Rattle.dd_model.specs.Code.{IsLeastForm};
ghost use Rattle.dd_model.specs.Isomorphic.{IsIsomorphism};
ghost use Rattle.dd_model.specs.Reading.{IsReadable};
ghost use Rattle.dd_covers.specs.Torus.{IsTorus};
ghost use Rattle.dd_covers.specs.TorusCover.{IsTorusCover};
ghost use Rattle.dd_quotient.specs.Dual.{dual_of};
ghost use Rattle.dd_template.specs.Named.{table_of_operation};
ghost use Rattle.dd_suite_commands.specs.InTurn.{AreInTurn};
ghost use Rattle.dd_suite_commands.specs.Made.{IsLeastImage, IsLeastCover, IsLeastTorus, IsDerived, IsApplied, IsTooLong, IsTooLongFor, IsTooSharp, IsCurved, IsMade, IsFaultOf, IsFirstFault};
ghost use Rattle.dd_suite_commands.specs.Files.{AreLinesOfMade};
ghost use Rattle.dd_suite_commands.specs.Stops.{IsStop};

use crate::commands::SymbolCommand;
use crate::refusals::{SymbolFault, SymbolRefusal};
use crate::stop::Stop;
use dd_canon::{least_form, least_form_with};
use dd_covers::{Cover, TorusFault, oriented, torus};
use dd_model::Memory;
use dd_opword::{OpWord, apply_word};
use dd_quotient::{MinimalFault, dual, minimal_image};
use dd_symbol::Connected;
use dd_template::{ApplyFault, Operation};
use dd_text::put_lines;
use std::alloc::Global;

/// The lines of what a command makes of symbols, numbered from 1.
pub(crate) fn lines_of(
    alloc: Global,
    command: SymbolCommand,
    symbols: Vec<Connected>,
) -> Result<Vec<u8>, Stop<SymbolRefusal>>
    requires { AllByRecursion IsReadable symbols.items }
    ensures text { IfOk result (λ text. AreLinesOfMade command symbols.items text.items) }
    ensures why { IfErr result (IsStop (IsFirstFault command 1 symbols.items)) }
{
    let made = made_of(alloc, command, symbols)?;
    let mut text = Vec::new(alloc);
    put_lines(&mut text, 0, &made)?;
    Ok(text)
}

/// What a command makes of symbols, in order.
fn made_of(
    alloc: Global,
    command: SymbolCommand,
    symbols: Vec<Connected>,
) -> Result<Vec<Connected>, Stop<SymbolRefusal>>
    requires { AllByRecursion IsReadable symbols.items }
    ensures made { IfOk result (λ made. AreInTurn (IsMade command) symbols.items made.items) }
    ensures why { IfErr result (IsStop (IsFirstFault command 1 symbols.items)) }
{
    match command {
        SymbolCommand::Lines => Ok(symbols),
        _ => each_made(alloc, command, &symbols),
    }
}

/// What a command makes of each symbol, in order.
fn each_made(
    alloc: Global,
    command: SymbolCommand,
    symbols: &[Connected],
) -> Result<Vec<Connected>, Stop<SymbolRefusal>>
    requires { AllByRecursion IsReadable symbols.now }
    ensures made { IfOk result (λ made. AreInTurn (IsMade command) symbols.now made.items) }
    ensures why { IfErr result (IsStop (IsFirstFault command 1 symbols.now)) }
{
    let mut made = Vec::new(alloc);
    for (before, symbol) in symbols.iter().enumerate() {
        match made_of_one(alloc, command, symbol) {
            Ok(one) => made.push(one)?,
            Err(stop) => return Err(stop.at(before + 1)),
        }
    }
    Ok(made)
}

/// What a command makes of a symbol.
fn made_of_one(
    alloc: Global,
    command: SymbolCommand,
    s: &Connected,
) -> Result<Connected, Stop<SymbolFault>>
    requires { IsReadable s.now }
    ensures made { IfOk result (λ made. IsMade command s.now made) }
    ensures why { IfErr result (IsStop (IsFaultOf command s.now)) }
{
    match command {
        SymbolCommand::Lines => Ok(s.try_copy(alloc)?),
        SymbolCommand::Canon => Ok(least_form(alloc, s)?),
        SymbolCommand::Minimal => least_image(alloc, s),
        SymbolCommand::Dual => Ok(least_dual(alloc, s)?),
        SymbolCommand::Oriented => Ok(least_cover(alloc, s)?),
        SymbolCommand::Torus => least_torus(alloc, s),
        SymbolCommand::Derived(operation) => derived(alloc, operation, s),
        SymbolCommand::Applied(word) => applied(alloc, word, s),
    }
}

/// The least form of the minimal image.
fn least_image(alloc: Global, s: &Connected) -> Result<Connected, Stop<SymbolFault>>
    ensures image { IfOk result (λ form. IsLeastImage s.now form) }
    ensures why { IfErr result (IsStop (IsTooSharp s.now)) }
{
    let (image, _map) = match minimal_image(alloc, s) {
        Ok(answer) => answer,
        Err(MinimalFault::BranchingTooLarge { v }) => {
            return Err(Stop::Refused(SymbolFault::BranchingTooLarge { v }));
        }
        Err(MinimalFault::Memory) => return Err(Stop::Memory),
    };
    Ok(least_form(alloc, &image)?)
}

/// The least form of the dual.
fn least_dual(alloc: Global, s: &Connected) -> Result<Connected, Memory>
    ensures { IfOk result (λ form. IsLeastForm (dual_of s.now) form) }
{
    let dual = dual(alloc, s)?;
    least_form(alloc, &dual)
}

/// The least form of the oriented cover.
fn least_cover(alloc: Global, s: &Connected) -> Result<Connected, Memory>
    requires { IsReadable s.now }
    ensures { IfOk result (λ form. IsLeastCover s.now form) }
{
    let cover = oriented(alloc, s)?;
    least_form_with(alloc, &cover.symbol, cover.turn.as_slice())
}

/// The torus cover of a flat symbol.
pub(crate) fn flat_torus(alloc: Global, s: &Connected) -> Result<Cover, Stop<SymbolFault>>
    requires { IsReadable s.now }
    ensures cover { IfOk result (λ cover. IsTorusCover s.now cover.symbol cover.below) }
    ensures torus { IfOk result (λ cover. IsTorus cover.symbol) }
    ensures turn { IfOk result (λ cover. IsIsomorphism cover.symbol cover.symbol cover.turn) }
    ensures flat { IfOk result (λ _. Flat s.now) }
    ensures why { IfErr result (IsStop (IsCurved s.now)) }
{
    match torus(alloc, s) {
        Ok(cover) => Ok(cover),
        Err(TorusFault::NotFlat { curvature }) => {
            Err(Stop::Refused(SymbolFault::NotFlat { curvature }))
        }
        Err(TorusFault::Memory) => Err(Stop::Memory),
    }
}

/// The least form of the torus cover.
fn least_torus(alloc: Global, s: &Connected) -> Result<Connected, Stop<SymbolFault>>
    requires { IsReadable s.now }
    ensures torus { IfOk result (λ form. IsLeastTorus s.now form) }
    ensures why { IfErr result (IsStop (IsCurved s.now)) }
{
    let cover = flat_torus(alloc, s)?;
    Ok(least_form_with(alloc, &cover.symbol, cover.turn.as_slice())?)
}

/// The least form of what the table of an operation makes of a symbol.
fn derived(
    alloc: Global,
    operation: Operation,
    s: &Connected,
) -> Result<Connected, Stop<SymbolFault>>
    ensures form { IfOk result (λ form. IsDerived (table_of_operation operation) s.now form) }
    ensures why { IfErr result (IsStop (IsTooLong (table_of_operation operation) s.now)) }
{
    let made = match operation.apply(alloc, s) {
        Ok(made) => made,
        Err(ApplyFault::TooManyChambers { n }) => {
            return Err(Stop::Refused(SymbolFault::TooManyChambers { n }));
        }
        Err(ApplyFault::Memory) => return Err(Stop::Memory),
    };
    Ok(least_form(alloc, &made)?)
}

/// The least form of what the operations of a word make of a symbol.
fn applied(alloc: Global, word: OpWord, s: &Connected) -> Result<Connected, Stop<SymbolFault>>
    ensures form { IfOk result (λ form. IsApplied word s.now form) }
    ensures why { IfErr result (IsStop (IsTooLongFor word s.now)) }
{
    let made = match apply_word(alloc, &word, s) {
        Ok(made) => made,
        Err(ApplyFault::TooManyChambers { n }) => {
            return Err(Stop::Refused(SymbolFault::TooManyChambers { n }));
        }
        Err(ApplyFault::Memory) => return Err(Stop::Memory),
    };
    Ok(least_form(alloc, &made)?)
}
