use dd_lattice::Net;
use dd_symbol::Connected;
use std::marker::Model;

/// A torus with its net.
#[derive(Drop)]
pub(crate) struct Torus<'a> {
    /// The torus.
    pub(crate) symbol: &'a Connected,
    /// Its net.
    pub(crate) net: &'a Net,
    /// The least chambers of its edges, in the order of the edges of the net.
    pub(crate) edges: Vec<u32>,
}

impl<'a> Model for Torus<'a> {
    ghost use Rattle.dd_gram.specs.Tori.{Torus as WithNet, IsWithNet};

    ghost Value = { WithNet };

    ghost view = { λ a. record { symbol = a.symbol.now; net = a.net.now; edges = a.edges.items } };

    ghost invariant = { λ a. IsWithNet a.symbol.now a.net.now a.edges.items };
}
