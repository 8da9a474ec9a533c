ghost use Rattle.std.specs.Prelude.{◌<◌};

/// A flag of a table: twice a chamber, and 1 more for the second involution of a pair.
#[derive(Clone, Copy, Drop)]
pub(crate) struct FlagNumber {
    pub(crate) number: u8,
    ghost small: { number < 74 },
}
