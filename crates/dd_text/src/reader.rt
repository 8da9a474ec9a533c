ghost use Rattle.std.specs.Prelude.{◌≡◌, ◌+◌, ◌≤◌, [], length, IfNone, IfSome};
ghost use Rattle.dd_model.specs.Parts.{is_blank};
ghost use Rattle.dd_model.specs.Reading.{most_bytes};

use dd_model::{Part, Placed};

/// Returns whether a byte is a blank.
pub(crate) fn is_blank(byte: u8) -> bool
    ensures { result ≡ is_blank byte }
{
    matches!(byte, b' ' | b'\t' | b'\r' | b'\n')
}

/// A place in a file, and the bytes from there on.
#[derive(Drop)]
pub(crate) struct Reader<'a> {
    at: u32,
    rest: &'a [u8],
    ghost short: { at + length rest.now ≤ most_bytes },
}

impl<'a> Reader<'a> {
    ghost use Rattle.dd_model.specs.Parts.{past_blanks, digits, number_of};
    ghost use Rattle.dd_model.specs.Reading.{start, line_end};
    ghost use Rattle.dd_text.specs.Reader.{cursor_of, stepped, past_number, IsByteAt, IsNextPart};

    /// Stands at the beginning of a file.
    pub fn new(bytes: &'a [u8]) -> Self
        requires { length bytes.now ≤ most_bytes }
        ensures { cursor_of result ≡ start bytes.now }
    {
        Reader { at: 0, rest: bytes }
    }

    /// The place at which it stands.
    pub fn at(&self) -> u32
        ensures { result ≡ self.now.at }
    {
        self.at
    }

    /// The byte at which it stands, if any is left.
    pub fn peek(&self) -> Option<u8>
        ensures none { IfNone result (self.now.rest.now ≡ []) }
        ensures some { IfSome result (λ byte. IsByteAt self.now byte) }
    {
        self.rest.first().copied()
    }

    /// Goes on by one byte, if any is left.
    pub fn advance(&mut self)
        ensures { cursor_of self.new ≡ stepped (cursor_of self.old) }
    {
        if let [_, after @ ..] = self.rest {
            *self = Reader {
                at: self.at + 1,
                rest: after,
            };
        }
    }

    /// Goes on to the first byte that is no blank.
    fn skip_blanks(&mut self)
        ensures { cursor_of self.new ≡ past_blanks self.old.at self.old.rest.now }
    {
        while let [byte, after @ ..] = self.rest {
            if !is_blank(*byte) {
                break;
            }
            *self = Reader {
                at: self.at + 1,
                rest: after,
            };
        }
    }

    /// Goes on to the next line feed, or to the end.
    pub fn skip_line(&mut self)
        ensures { cursor_of self.new ≡ line_end self.old.at self.old.rest.now }
    {
        while let [byte, after @ ..] = self.rest {
            if *byte == b'\n' {
                break;
            }
            *self = Reader {
                at: self.at + 1,
                rest: after,
            };
        }
    }

    /// Reads the digits at the front.
    fn number(&mut self) -> Part
        ensures part { result ≡ number_of (digits self.old.rest.now) }
        ensures rest { cursor_of self.new ≡ past_number (cursor_of self.old) }
    {
        let mut value: u32 = 0;
        let mut count: u32 = 0;
        while let [byte, after @ ..] = self.rest {
            if !byte.is_ascii_digit() {
                break;
            }
            if count < 9 {
                value = 10 * value + (*byte - b'0') as u32;
            }
            count += 1;
            *self = Reader {
                at: self.at + 1,
                rest: after,
            };
        }
        if count <= 9 {
            Part::Number(value)
        } else {
            Part::Overlong
        }
    }

    /// Reads the next part; blanks may stand before it.
    pub fn part(&mut self) -> Placed
        ensures { IsNextPart (cursor_of self.old) result (cursor_of self.new) }
    {
        self.skip_blanks();
        let at = self.at;
        let part = match self.peek() {
            None => Part::End,
            Some(byte) if byte.is_ascii_digit() => self.number(),
            Some(byte) => {
                self.advance();
                Part::Sign(byte)
            }
        };
        Placed { at, part }
    }
}
