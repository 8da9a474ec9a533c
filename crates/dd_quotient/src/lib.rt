//! Duals and minimal images of symbols, which symbols are minimal, and the laws that images and
//! catalogues exist.
#![tactic(auto)]

mod classes;
mod duals;
mod existence_laws;
mod image_laws;
mod images;
mod minimal;
mod ranks;

pub use duals::{dual, dual_of_dual, duals_are_connected_symbols};
pub use existence_laws::{
    a_position_has_a_text, a_request_has_a_catalogue, a_symbol_has_a_minimal_image,
};
pub use image_laws::{
    first_large_values_are_unique, minimal_images_are_isomorphic, minimal_images_are_minimal,
    minimal_images_in_order_are_unique, minimal_symbols_are_their_images,
};
pub use images::{MinimalFault, minimal_image};
pub use minimal::is_minimal;
