ghost use Rattle.std.specs.Prelude.{◌<◌};

/// A part of a table of K parts.
#[derive(Clone, Copy)]
pub(crate) struct PartNumber<const K: usize> {
    /// Its number, counted from 0.
    pub(crate) number: usize,
    ghost inside: { number < K },
}
