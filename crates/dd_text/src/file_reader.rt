ghost use Rattle.std.specs.Prelude.{◌≡◌, ◌≢◌, ℕ, ◌+◌, ◌≤◌, ◌<◌, List, length, MatchResult, IfOk, IfErr, OnOk};
ghost use Rattle.dd_model.specs.Symbol.{Symbol};
ghost use Rattle.dd_model.specs.Reading.{Reads, IsReadable};
ghost use Rattle.dd_text.specs.Reader.{cursor_of, IsByteAt};
ghost use Rattle.dd_text.specs.FileFaults.{IsNextFault, IsFileFault};
ghost use Rattle.dd_text.specs.Items.{why_of, AreInvolutionsOf, TextTells, IsFaultOfText};
ghost use Rattle.dd_text.specs.Items.{IsFaultAtSymbol, ReadsSymbol, ReadsItem};

use crate::degrees::degrees;
use crate::faults::{Fault, FileFault, Why};
use crate::images::images;
use crate::reader::{Reader, is_blank};
use crate::symbol_text::SymbolText;
use dd_model::Pair;
use dd_symbol::{Connected, ImageLists, Involutions, Refusal, build_on};
use std::alloc::Global;

/// How many bytes a file has at most.
pub const MOST_BYTES: usize = 16_777_216;

/// How many symbols a file has at most.
const MOST_SYMBOLS: usize = 1_000_000;

/// Why a symbol is not read that is refused.
fn why_of(refusal: Refusal) -> Why
    ensures { result ≡ why_of refusal }
{
    match refusal {
        Refusal::Memory => Why::Memory,
        _ => Why::Symbol(refusal),
    }
}

/// The involutions of a text.
fn involutions_of(alloc: Global, text: &SymbolText) -> Result<Involutions, Fault>
    requires { text.now.size ≤ 1024 }
    ensures told { IfOk result (λ involutions. AreInvolutionsOf text.now involutions) }
    ensures why { IfErr result (λ fault. (place : ℕ) → IsFaultOfText text.now place fault) }
{
    let s0 = images(alloc, text.size, &text.s0)?;
    let s1 = images(alloc, text.size, &text.s1)?;
    let s2 = images(alloc, text.size, &text.s2)?;
    let lists = ImageLists {
        s0: &s0,
        s1: &s1,
        s2: &s2,
    };
    Ok(Involutions::from_known(alloc, &lists)?)
}

/// The symbol of a text. A refusal has the place of the symbol's `<`.
fn symbol_of(alloc: Global, text: &SymbolText, at: u32) -> Result<Connected, Fault>
    requires { text.now.size ≤ 1024 }
    ensures tells { IfOk result (λ symbol. TextTells text.now symbol) }
    ensures readable { IfOk result (λ symbol. IsReadable symbol) }
    ensures why { IfErr result (λ fault. IsFaultOfText text.now at fault) }
{
    let involutions = involutions_of(alloc, text)?;
    let m01 = degrees(alloc, &involutions, Pair::Tile, &text.m01)?;
    let m12 = degrees(alloc, &involutions, Pair::Vertex, &text.m12)?;
    match build_on(alloc, involutions, m01, m12) {
        Ok(symbol) => Ok(symbol),
        Err(refusal) => Err(Fault {
            at,
            why: why_of(refusal),
        }),
    }
}

/// Reads a symbol; the reader stands at its `<`.
fn read_symbol(alloc: Global, reader: &mut Reader<'_>) -> Result<Connected, Fault>
    requires { IsByteAt reader.old 60 }
    ensures ok { IfOk result (λ symbol. ReadsSymbol (cursor_of reader.old) symbol
        (cursor_of reader.new)) }
    ensures why { IfErr result (λ fault. IsFaultAtSymbol
        (cursor_of reader.old) fault.why fault.at) }
{
    let at = reader.at();
    reader.advance();
    let text = reader.text(alloc)?;
    symbol_of(alloc, &text, at)
}

/// Reads what stands at a byte: a blank, a comment or a symbol, which is put behind the others.
fn read_item(
    alloc: Global,
    reader: &mut Reader<'_>,
    byte: u8,
    symbols: &mut Vec<Connected>,
) -> Result<(), Fault>
    requires byte { IsByteAt reader.old byte }
    requires count { length symbols.old.items ≤ 1000000 }
    ensures ok { OnOk result (ReadsItem (cursor_of reader.old)
        (cursor_of reader.new) symbols.old.items symbols.new.items) }
    ensures count { length symbols.new.items ≤ 1000000 }
    ensures same { IfErr result (λ _. symbols.new.items ≡ symbols.old.items) }
    ensures why { IfErr result (λ fault. IsNextFault (cursor_of reader.old)
        (length symbols.old.items) fault.why fault.at) }
{
    let at = reader.at();
    if is_blank(byte) {
        reader.advance();
        return Ok(());
    }
    if byte == b'#' {
        reader.advance();
        reader.skip_line();
        return Ok(());
    }
    if byte != b'<' {
        return Err(Fault {
            at,
            why: Why::Stray,
        });
    }
    if symbols.len() == MOST_SYMBOLS {
        return Err(Fault {
            at,
            why: Why::TooManySymbols,
        });
    }
    let symbol = read_symbol(alloc, reader)?;
    Ok(symbols.push(symbol)?)
}

/// Reads a file, item by item.
fn read(alloc: Global, bytes: &[u8]) -> Result<Vec<Connected>, FileFault>
    ensures reads { IfOk result (λ symbols. Reads bytes.now symbols.items) }
    ensures why { IfErr result (λ fault. IsFileFault bytes.now fault) }
{
    if bytes.len() > MOST_BYTES {
        return Err(FileFault {
            symbol: 0,
            at: MOST_BYTES as u64,
            why: Why::Long,
        });
    }
    let mut reader = Reader::new(bytes);
    let mut symbols = Vec::new(alloc);
    while let Some(byte) = reader.peek() {
        if let Err(fault) = read_item(alloc, &mut reader, byte, &mut symbols) {
            return Err(FileFault {
                symbol: symbols.len() as u32 + 1,
                at: fault.at as u64,
                why: fault.why,
            });
        }
    }
    Ok(symbols)
}

/// The symbols that a file spells, in order, or its first fault.
pub fn read_file(alloc: Global, bytes: &[u8]) -> Result<Vec<Connected>, FileFault>
    // What is answered is spelled.
    ensures reads { IfOk result (λ symbols. Reads bytes.now symbols.items) }

    // What is spelled is answered, unless memory runs out.
    ensures spelled { (symbols : List Symbol) → Reads bytes.now symbols
        → MatchResult result (λ read. read.items ≡ symbols) (λ fault. fault.why ≡ Why.Memory) }

    // What fault is answered, and for which symbol and place.
    ensures why { IfErr result (λ fault. IsFileFault bytes.now fault) }
{
    read(alloc, bytes)
}
