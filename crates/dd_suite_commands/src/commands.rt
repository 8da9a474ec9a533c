use dd_model::Frame;
use dd_opword::OpWord;
use dd_template::Operation;

/// A command that writes a line for each symbol of a file.
#[derive(Clone, Copy, Debug, PartialEq, Eq)]
pub enum SymbolCommand {
    /// The symbol as it was read.
    Lines,
    /// Its least form.
    Canon,
    /// The least form of its minimal image.
    Minimal,
    /// The least form of its dual.
    Dual,
    /// The least form of its oriented cover.
    Oriented,
    /// The least form of its torus cover.
    Torus,
    /// The least form of a derived tiling.
    Derived(Operation),
    /// The least form of what the operations of a word make.
    Applied(OpWord),
}

/// A command on the symbols of a file.
#[derive(Clone, Copy, Debug, PartialEq, Eq)]
pub enum FileCommand {
    /// What is made of each symbol.
    Symbols(SymbolCommand),
    /// What each symbol is.
    Info,
    /// The number of sheets of the torus cover of each symbol.
    Sheets,
    /// The net of the torus cover of each symbol, as a drawing in a cell of this shape, or of the
    /// shape that the symmetries of the torus cover keep.
    Draw(Option<Frame>),
}
