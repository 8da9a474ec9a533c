/// A position as the text has it: the end, or a size and the numbers after it.
#[derive(Drop)]
pub(crate) enum RawPosition {
    At(u64, Vec<u64>),
    End,
}

/// An item of a set as the text has it: one number, or the two ends of a row of numbers.
#[derive(Clone, Copy)]
pub(crate) enum Item {
    One(u64),
    Span(u64, u64),
}

/// The numbers of a request, as the text has them.
#[derive(Clone, Copy)]
pub(crate) struct Limits {
    pub chambers: u64,
    pub tiles: u64,
    pub vertices: u64,
    pub minimal: bool,
}

/// The numbers of a request of version 1, whose sets of degrees run from a least number to 216.
#[derive(Clone, Copy)]
pub(crate) struct OldLimits {
    pub chambers: u64,
    pub tiles: u64,
    pub vertices: u64,
    pub least_face: u64,
    pub least_degree: u64,
    pub minimal: bool,
}
