/// A part of the text of a symbol.
#[derive(Debug, Clone, Copy, PartialEq, Eq)]
pub enum Part {
    /// A byte that is neither a blank nor a digit.
    Sign(u8),
    /// The value of 1 to 9 decimal digits.
    Number(u32),
    /// More than 9 decimal digits.
    Overlong,
    /// No byte is left.
    End,
}

/// A part, and the place of its first byte, counted from 0.
#[derive(Debug, Clone, Copy, PartialEq, Eq)]
pub struct Placed {
    pub at: u32,
    pub part: Part,
}

/// A number of at most 9 digits, and the place of its first digit.
#[derive(Debug, Clone, Copy, PartialEq, Eq)]
pub struct Numeral {
    pub at: u32,
    pub value: u32,
}
