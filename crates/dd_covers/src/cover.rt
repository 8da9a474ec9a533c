use dd_model::Map;
use dd_symbol::Connected;

/// A symbol above another, each of whose chambers lies above one of the other's.
#[derive(Drop)]
pub struct Cover {
    /// The symbol above.
    pub symbol: Connected,
    /// The chamber below each of its chambers, which is a morphism.
    pub below: Map,
    /// The chamber in the next sheet, for each of its chambers. This is an automorphism.
    pub turn: Map,
}
