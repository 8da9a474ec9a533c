use dd_symbol::Connected;

/// A symbol that is merged, and where it was.
#[derive(Drop)]
pub(crate) struct Member {
    /// The symbol.
    pub symbol: Connected,
    /// The number of its list, counted from 1.
    pub file: u32,
    /// Its number in the list, counted from 1.
    pub number: u32,
}

/// The number of a list, and of a symbol in the list, both counted from 1.
#[derive(Debug, Clone, Copy, PartialEq, Eq)]
pub(crate) struct ListPlace {
    /// The number of the list.
    pub file: u32,
    /// The number of the symbol.
    pub number: u32,
}
