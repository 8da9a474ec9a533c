use dd_model::Numeral;

/// The numbers of a list, and the place of the sign that ends it.
#[derive(Drop)]
pub(crate) struct NumberList {
    pub numbers: Vec<Numeral>,
    pub end: u32,
}
