ghost use Rattle.std.specs.Prelude.{Some};
ghost use Rattle.dd_suite_commands.specs.Messages.{symbol_fault_text, symbol_refusal_text};

use dd_cells::Fraction;
use std::fmt;

/// Why a command makes nothing of a symbol.
#[derive(Clone, Copy, Debug, PartialEq, Eq)]
pub enum SymbolFault {
    /// There would be more than 1,024 chambers.
    TooManyChambers {
        /// The number of chambers of the symbol.
        n: u32,
    },
    /// The minimal image has a branching value over 30.
    BranchingTooLarge {
        /// The first such value.
        v: u32,
    },
    /// The curvature is not 0.
    NotFlat {
        /// The curvature.
        curvature: Fraction,
    },
    /// The torus cover has over 96 vertices.
    TooManyVertices {
        /// The number of its vertices.
        count: u32,
    },
    /// The elimination that places the vertices has a number over 2^62.
    TooWide {
        /// The step at which the first such number stands.
        step: u32,
        /// Its row.
        row: u32,
        /// Its column.
        column: u32,
    },
}

impl fmt::Display for SymbolFault {
    ghost output = { λ fault. Some (symbol_fault_text fault) };

    fn fmt<W: fmt::Write>(&self, f: &mut fmt::Formatter<W>) -> fmt::Result {
        match self {
            SymbolFault::TooManyChambers { n } => write!(f, "too many chambers {n}"),
            SymbolFault::BranchingTooLarge { v } => write!(f, "branching too large {v}"),
            SymbolFault::NotFlat { curvature } if curvature.den == 1 => {
                write!(f, "not flat {}", curvature.num)
            }
            SymbolFault::NotFlat { curvature } => {
                write!(f, "not flat {}/{}", curvature.num, curvature.den)
            }
            SymbolFault::TooManyVertices { count } => write!(f, "too many vertices {count}"),
            SymbolFault::TooWide { step, row, column } => {
                write!(f, "too wide step {step} row {row} column {column}")
            }
        }
    }
}

/// A symbol of a file of which a command makes nothing.
#[derive(Clone, Copy, Debug, PartialEq, Eq)]
pub struct SymbolRefusal {
    /// The number of the symbol in the file, counted from 1.
    pub symbol: usize,
    /// Why.
    pub why: SymbolFault,
}

impl fmt::Display for SymbolRefusal {
    ghost output = { λ refusal. Some (symbol_refusal_text refusal) };

    fn fmt<W: fmt::Write>(&self, f: &mut fmt::Formatter<W>) -> fmt::Result {
        write!(f, "symbol {}: {}", self.symbol, self.why)
    }
}
