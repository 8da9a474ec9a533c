ghost use Rattle.std.specs.Prelude.{◌≡◌, Some};
ghost use Rattle.dd_check.specs.Messages.{check_fault_text};
ghost use Rattle.dd_check.specs.ShardFaults.{shard_fault_text};

use dd_model::Memory;
use std::alloc::{AllocError, AllocFailed};
use std::fmt;

/// Why a text is no checkpoint text.
#[derive(Debug, Clone, Copy, PartialEq, Eq)]
pub enum CheckFault {
    /// The first line is that of no version.
    Version,
    /// This line is missing or not of its form. Lines are counted from 1.
    Shape { line: u32 },
    /// This line has a number out of range.
    Range { line: u32 },
    /// A catalogue may not stop at the position.
    Position,
    /// There are over 4,096 bytes.
    Long,
    /// Out of memory.
    Memory,
}

impl fmt::Display for CheckFault {
    ghost output = { λ fault. Some (check_fault_text fault) };

    fn fmt<W: fmt::Write>(&self, f: &mut fmt::Formatter<W>) -> fmt::Result {
        match self {
            CheckFault::Version => f.write_str("version"),
            CheckFault::Shape { line } => write!(f, "shape line {line}"),
            CheckFault::Range { line } => write!(f, "range line {line}"),
            CheckFault::Position => f.write_str("position"),
            CheckFault::Long => f.write_str("too long"),
            CheckFault::Memory => f.write_str("out of memory"),
        }
    }
}

impl From<Memory> for CheckFault {
    ghost use Rattle.dd_check.specs.declared.faults.CheckFault.TheVariants as faults;

    ghost from_gives = { λ _ fault. fault ≡ faults.Memory };

    fn from(_: Memory) -> Self {
        CheckFault::Memory
    }
}

impl From<AllocError> for CheckFault {
    ghost use Rattle.dd_check.specs.declared.faults.CheckFault.TheVariants as faults;

    ghost from_gives = { λ _ fault. fault ≡ faults.Memory };

    fn from(_: AllocError) -> Self {
        CheckFault::Memory
    }
}

impl<T: Drop> From<AllocFailed<T>> for CheckFault {
    ghost use Rattle.dd_check.specs.declared.faults.CheckFault.TheVariants as faults;

    ghost from_gives = { λ _ fault. fault ≡ faults.Memory };

    fn from(_: AllocFailed<T>) -> Self {
        CheckFault::Memory
    }
}

/// Why a text is no text of a shard.
#[derive(Debug, Clone, Copy, PartialEq, Eq)]
pub enum ShardFault {
    /// The first line is not that of a shard.
    First,
    /// What comes after the first line is no checkpoint text. Its lines are counted there.
    Check(CheckFault),
    /// The position is not one of the shard.
    Other,
    /// Out of memory.
    Memory,
}

impl fmt::Display for ShardFault {
    ghost output = { λ fault. Some (shard_fault_text fault) };

    fn fmt<W: fmt::Write>(&self, f: &mut fmt::Formatter<W>) -> fmt::Result {
        match self {
            ShardFault::First => f.write_str("shard"),
            ShardFault::Check(fault) => write!(f, "{fault}"),
            ShardFault::Other => f.write_str("other shard"),
            ShardFault::Memory => f.write_str("out of memory"),
        }
    }
}

impl From<Memory> for ShardFault {
    ghost use Rattle.dd_check.specs.declared.faults.ShardFault.TheVariants as faults;

    ghost from_gives = { λ _ fault. fault ≡ faults.Memory };

    fn from(_: Memory) -> Self {
        ShardFault::Memory
    }
}
