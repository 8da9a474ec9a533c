ghost use Rattle.std.specs.Prelude.{◌≡◌, ◌≤◌, ◌<◌, ℕ, length, drop, true, false};
ghost use Rattle.std.specs.List.Sorted.{IsNonDecreasingBy, IsPartitionPoint};
ghost use Rattle.dd_member_lists.specs.Lists.{begins_by, degrees_in, series_at};

use dd_symbol::Connected;

/// The symbols of a list that follow each other and have one table: they go on up to where the next
/// series begins.
#[derive(Drop)]
pub(crate) struct Series {
    /// The involutions of its symbols, with any degrees.
    pub(crate) table: Connected,
    /// How many symbols are before it.
    pub(crate) first: usize,
    /// How many bytes of degrees are before it.
    pub(crate) degrees: usize,
}

impl Series {
    /// The bytes from the degrees of one of its symbols on.
    pub(crate) fn degrees_from<'a>(&self, bytes: &'a [u8], symbol: usize) -> &'a [u8]
        requires begun { self.now.first ≤ symbol }
        requires within { degrees_in self.now symbol ≤ length bytes.now }
        ensures { result.now ≡ drop (degrees_in self.now symbol) bytes.now }
    {
        let told = 2 * self.table.symbol().size() as usize;
        let (_, later) = bytes.split_at(self.degrees + told * (symbol - self.first));
        later
    }
}

/// The number of the first series that begins after a symbol; where there is none, how many there
/// are.
pub(crate) fn next_after(series: &[Series], symbol: usize) -> usize
    requires { IsNonDecreasingBy (λ (one : Series). one.first) series.now }
    ensures within { result ≤ length series.now }
    ensures point { IsPartitionPoint (λ (one : Series). begins_by symbol one ≡ true)
        (λ (one : Series). begins_by symbol one ≡ false) series.now result }
{
    series.partition_point(|one| one.first <= symbol)
}

/// The number of the symbol before which a series ends: that of the first one of the next series,
/// but none over `most`.
pub(crate) fn end_before(series: &[Series], next: usize, most: usize) -> usize
    ensures most { result ≤ most }
    ensures next { next < length series.now → result ≤ (series_at series.now next).first }
    ensures least { (k : ℕ) → k < most
        → (next < length series.now → k < (series_at series.now next).first) → k < result }
{
    match series.get(next) {
        Some(one) => one.first.min(most),
        None => most,
    }
}
