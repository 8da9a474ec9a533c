ghost use Rattle.std.specs.Prelude.{◌≡◌, true, false};
ghost use Rattle.crossbeam_deque.specs.Handles.{view, IsPassOf, stealer_deque};

use crate::known::Known;
use crate::slot::{Numbered, Slot};
use crossbeam_deque::{Pass, Stealer};
use dd_front::Naming;
use std::alloc::Global;

/// A way into another worker's deque, which has the number `from`.
#[derive(Drop)]
pub struct Way<N: Naming> {
    pub(crate) from: u32,
    pub(crate) stealer: Stealer<Slot<N>, Global, Known, Numbered>,
    pub(crate) pass: Pass<Slot<N>, Known>,
    ghost passes: { IsPassOf (stealer_deque stealer) pass },
    ghost live: { (view pass).live ≡ true },
    ghost guest: { (view pass).owns ≡ false },
}
