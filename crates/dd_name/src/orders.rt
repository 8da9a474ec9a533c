ghost use Rattle.std.specs.Prelude.{◌≡◌, ℕ, List};

use std::marker::Model;

/// Orders of cones, or of the corners of a boundary.
#[derive(Drop)]
pub struct Orders {
    orders: Vec<u32>,
}

impl Model for Orders {
    ghost Value = { List ℕ };

    ghost view = { λ a. a.orders.items };
}

impl Orders {
    /// These orders.
    pub fn from_vec(orders: Vec<u32>) -> Orders
        ensures { result ≡ orders.items }
    {
        Orders { orders }
    }

    /// The orders in turn.
    pub fn as_slice(&self) -> &[u32]
        ensures { result.now ≡ self.now }
    {
        self.orders.as_slice()
    }
}

/// Boundaries, each with the orders of its corners.
#[derive(Drop)]
pub struct Boundaries {
    boundaries: Vec<Orders>,
}

impl Model for Boundaries {
    ghost Value = { List (List ℕ) };

    ghost view = { λ a. a.boundaries.items };
}

impl Boundaries {
    /// These boundaries.
    pub fn from_vec(boundaries: Vec<Orders>) -> Boundaries
        ensures { result ≡ boundaries.items }
    {
        Boundaries { boundaries }
    }

    /// The boundaries in turn.
    pub fn as_slice(&self) -> &[Orders]
        ensures { result.now ≡ self.now }
    {
        self.boundaries.as_slice()
    }
}
