ghost use Rattle.std.specs.Prelude.{◌≡◌, ◌≢◌, ℕ, Some};
ghost use Rattle.dd_model.specs.Symbol.{Symbol};
ghost use Rattle.dd_symbol.specs.Building.{IsAccepted};
ghost use Rattle.dd_symbol.specs.Messages.{refusal_text};
ghost use Rattle.dd_symbol.specs.Refusals.{IsRefused};

use dd_model::{Index, Memory, Pair};
use std::fmt;

/// Why five lists are not taken as a connected symbol, in the order in which the causes are looked
/// for.
#[derive(Debug, Clone, Copy, PartialEq, Eq)]
pub enum Refusal {
    /// There is no chamber.
    Empty,
    /// There are n chambers, and that is over the limit.
    TooManyChambers {
        n: usize,
    },
    /// An image of a chamber is no chamber: of the least i, the least chamber.
    OpRange {
        i: Index,
        chamber: u32,
    },
    /// The image of the image of a chamber is another one: of the least i, the least chamber.
    NotInvolution {
        i: Index,
        chamber: u32,
    },
    /// s0 s2 s0 s2 moves a chamber, the least.
    NotCommuting {
        chamber: u32,
    },
    /// No word leads from chamber 1 to a chamber, the least.
    NotConnected {
        chamber: u32,
    },
    /// A degree is 0: of tiles before vertices, the least chamber.
    DegreeZero {
        pair: Pair,
        chamber: u32,
    },
    /// A degree is not that of the least chamber of its cell: of tiles before vertices, the least
    /// chamber.
    DegreeVaries {
        pair: Pair,
        chamber: u32,
    },
    /// A degree m is no multiple of the r of its cell: of tiles before vertices, the least chamber.
    NotMultiple {
        pair: Pair,
        chamber: u32,
        r: u32,
        m: u32,
    },
    /// A branching value v is over 30: of tiles before vertices, the least chamber.
    BranchingTooLarge {
        pair: Pair,
        chamber: u32,
        v: u32,
    },
    /// There was no room.
    Memory,
}

impl From<Memory> for Refusal {
    ghost use Rattle.dd_symbol.specs.declared.refusals.Refusal.TheVariants as refusal;
    ghost use Rattle.std.specs.Prelude.{◌≡◌};

    ghost from_gives = { λ _ result. result ≡ refusal.Memory };

    fn from(_: Memory) -> Self {
        Refusal::Memory
    }
}

impl fmt::Display for Refusal {
    ghost output = { λ refusal. Some (refusal_text refusal) };

    fn fmt<W: fmt::Write>(&self, f: &mut fmt::Formatter<W>) -> fmt::Result {
        match self {
            Refusal::Empty => f.write_str("empty"),
            Refusal::TooManyChambers { n } => write!(f, "too many chambers {n}"),
            Refusal::OpRange { chamber, .. } => write!(f, "image {chamber}"),
            Refusal::NotInvolution { chamber, .. } => write!(f, "no involution {chamber}"),
            Refusal::NotCommuting { chamber } => write!(f, "not commuting {chamber}"),
            Refusal::NotConnected { chamber } => write!(f, "not connected {chamber}"),
            Refusal::DegreeZero { pair, chamber } => write!(f, "degree zero {pair} {chamber}"),
            Refusal::DegreeVaries { pair, chamber } => write!(f, "degree varies {pair} {chamber}"),
            Refusal::NotMultiple {
                pair,
                chamber,
                r,
                m,
            } => write!(f, "not multiple {pair} {chamber} r {r} m {m}"),
            Refusal::BranchingTooLarge { pair, chamber, v } => {
                write!(f, "branching too large {pair} {chamber} v {v}")
            }
            Refusal::Memory => f.write_str("out of memory"),
        }
    }
}

/// No lists are refused for two causes, and none are refused that are accepted.
pub fn refusals_exclude_each_other()
    ensures unique { (limit : ℕ) (s : Symbol) (a b : Refusal) → IsRefused limit s a
        → IsRefused limit s b → a ≢ Refusal.Memory → b ≢ Refusal.Memory → a ≡ b }
    ensures accepted { (limit : ℕ) (s : Symbol) (why : Refusal) → IsRefused limit s why
        → why ≢ Refusal.Memory → IsAccepted limit s → ⊥ }
{}
