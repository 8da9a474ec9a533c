ghost use Rattle.std.specs.Prelude.{◌≡◌, ◌≤◌, ℕ, List, length};

use std::marker::Model;

/// A map of chambers: its item D is the image of chamber D.
#[derive(Drop)]
pub struct Map {
    images: Vec<u32>,
}

impl Model for Map {
    ghost Value = { List ℕ };

    ghost view = { λ a. a.images.items };
}

impl Map {
    ghost use Rattle.dd_model.specs.Symbol.{item};

    /// The map with these images.
    pub fn from_vec(images: Vec<u32>) -> Map
        ensures { result ≡ images.items }
    {
        Map { images }
    }

    /// The images in order.
    pub fn as_slice(&self) -> &[u32]
        ensures { result.now ≡ self.now }
    {
        self.images.as_slice()
    }

    /// The image of a chamber.
    pub fn image(&self, chamber: u32) -> u32
        requires low { 1 ≤ chamber }
        requires high { chamber ≤ length self.now }
        ensures { result ≡ item self.now chamber }
    {
        self.images[chamber as usize - 1]
    }
}
