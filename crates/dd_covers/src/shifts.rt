/// How many sheets further on each involution leads from each chamber.
#[derive(Drop)]
pub(crate) struct Shifts {
    pub(crate) x0: Vec<u32>,
    pub(crate) x1: Vec<u32>,
    pub(crate) x2: Vec<u32>,
}
