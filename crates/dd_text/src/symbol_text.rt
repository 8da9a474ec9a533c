ghost use Rattle.std.specs.Prelude.{◌≡◌, ◌↔◌, [], IfOk, IfErr, OnOk, IsTrue};
ghost use Rattle.dd_model.specs.Spelling.{number_part, sign_part};
ghost use Rattle.dd_text.specs.Texts.{no_number_why, no_sign_why, IsNoNumber, IsNoSign};

use crate::faults::{Fault, Why};
use crate::lists::NumberList;
use crate::reader::Reader;
use dd_model::{Numeral, Part, Placed};
use std::alloc::Global;

/// The most chambers of a symbol in a file.
const MOST_CHAMBERS: u32 = 1024;

/// What stands in the text of a symbol: its number of chambers, and five lists.
#[derive(Drop)]
pub(crate) struct SymbolText {
    pub size: u32,
    pub s0: NumberList,
    pub s1: NumberList,
    pub s2: NumberList,
    pub m01: NumberList,
    pub m12: NumberList,
}

/// The fault of a part that may not stand where a number may.
fn no_number(part: Placed) -> Fault
    ensures place { result.at ≡ part.at }
    ensures why { result.why ≡ no_number_why part.part }
{
    let why = match part.part {
        Part::End => Why::UnexpectedEnd,
        Part::Overlong => Why::NumberTooLong,
        Part::Sign(_) | Part::Number(_) => Why::Stray,
    };
    Fault { at: part.at, why }
}

/// The fault of a part that may not stand where no number may.
fn no_sign(part: Placed) -> Fault
    ensures place { result.at ≡ part.at }
    ensures why { result.why ≡ no_sign_why part.part }
{
    let why = match part.part {
        Part::End => Why::UnexpectedEnd,
        Part::Sign(_) | Part::Number(_) | Part::Overlong => Why::Stray,
    };
    Fault { at: part.at, why }
}

/// The number that a part is.
fn number(part: Placed) -> Result<Numeral, Fault>
    ensures ok { IfOk result (λ x. part ≡ number_part x) }
    ensures why { IfErr result (λ fault. IsNoNumber part fault) }
{
    match part.part {
        Part::Number(value) => Ok(Numeral { at: part.at, value }),
        _ => Err(no_number(part)),
    }
}

/// Returns whether a part is this sign.
fn is_sign(part: Placed, byte: u8) -> bool
    ensures { IsTrue result ↔ (part ≡ sign_part byte part.at) }
{
    match part.part {
        Part::Sign(other) => other == byte,
        _ => false,
    }
}

/// Ok where a part is this sign.
fn expect_sign(part: Placed, byte: u8) -> Result<(), Fault>
    ensures ok { OnOk result (part ≡ sign_part byte part.at) }
    ensures why { IfErr result (λ fault. IsNoSign part byte fault) }
{
    if is_sign(part, byte) {
        Ok(())
    } else {
        Err(no_sign(part))
    }
}

impl<'a> Reader<'a> {
    ghost use Rattle.dd_model.specs.Parts.{Spells};
    ghost use Rattle.dd_model.specs.Spelling.{with_list};
    ghost use Rattle.dd_text.specs.Reader.{cursor_of};
    ghost use Rattle.dd_text.specs.Texts.{told_of, IsListFault, IsHeadTo, IsSizeTo, IsTextTo};
    ghost use Rattle.dd_text.specs.TextFaults.{IsTextFault};

    /// Reads the size, with the head before it if there is one, and the part after it.
    fn head(&mut self) -> Result<(Numeral, Placed), Fault>
        ensures ok { IfOk result (λ read. IsHeadTo (cursor_of self.old) read.0 read.1
            (cursor_of self.new)) }
        ensures why { IfErr result (λ fault. IsTextFault (cursor_of self.old) fault.why fault.at) }
    {
        let first = number(self.part())?;
        let next = self.part();
        if !is_sign(next, b'.') {
            return Ok((first, next));
        }
        number(self.part())?;
        expect_sign(self.part(), b':')?;
        let size = number(self.part())?;
        Ok((size, self.part()))
    }

    /// Reads up to the colon after the size, and answers the size.
    fn size(&mut self) -> Result<u32, Fault>
        ensures ok { IfOk result (λ size. IsSizeTo (cursor_of self.old) size (cursor_of self.new)) }
        ensures why { IfErr result (λ fault. IsTextFault (cursor_of self.old) fault.why fault.at) }
    {
        let (size, next) = self.head()?;
        if size.value == 0 || size.value > MOST_CHAMBERS {
            return Err(Fault {
                at: size.at,
                why: Why::Size,
            });
        }
        if is_sign(next, b':') {
            return Ok(size.value);
        }
        let dimension = number(next)?;
        if dimension.value != 2 {
            return Err(Fault {
                at: dimension.at,
                why: Why::Dimension,
            });
        }
        expect_sign(self.part(), b':')?;
        Ok(size.value)
    }

    /// Reads a list and the sign that ends it.
    fn list(&mut self, alloc: Global, end: u8) -> Result<NumberList, Fault>
        ensures ok { IfOk result (λ list. Spells (cursor_of self.old)
            (with_list (told_of list) end []) (cursor_of self.new)) }
        ensures why { IfErr result (λ fault. IsListFault (cursor_of self.old) end fault) }
    {
        let mut numbers = Vec::new(alloc);
        loop {
            let part = self.part();
            if is_sign(part, end) {
                return Ok(NumberList {
                    numbers,
                    end: part.at,
                });
            }
            let number = number(part)?;
            numbers.push(number)?;
        }
    }

    /// Reads the text of a symbol after its `<`.
    pub fn text(&mut self, alloc: Global) -> Result<SymbolText, Fault>
        ensures ok { IfOk result (λ text. IsTextTo (cursor_of self.old) text (cursor_of self.new)) }
        ensures why { IfErr result (λ fault. IsTextFault (cursor_of self.old) fault.why fault.at) }
    {
        let size = self.size()?;
        let s0 = self.list(alloc, b',')?;
        let s1 = self.list(alloc, b',')?;
        let s2 = self.list(alloc, b':')?;
        let m01 = self.list(alloc, b',')?;
        let m12 = self.list(alloc, b'>')?;
        Ok(SymbolText {
            size,
            s0,
            s1,
            s2,
            m01,
            m12,
        })
    }
}
