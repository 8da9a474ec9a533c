ghost use Rattle.std.specs.Prelude.{◌≡◌, ◌≤◌, ◌<◌, ◌^◌, true};
ghost use Rattle.crossbeam_deque.specs.Handles.{worker_view, worker_flavor, worker_index, worker_capacity};

use crate::known::Known;
use crate::slot::{Numbered, Slot};
use crossbeam_deque::Worker;
use dd_front::Naming;
use std::alloc::Global;

/// The owner's end of a deque, with room for a fixed number of pushes.
#[derive(Drop)]
pub struct Owner<N: Naming> {
    pub(crate) own: Worker<Slot<N>, Global, Known, Numbered>,
    pub(crate) room: u32,
    pub(crate) pushed: u32,
    ghost first_out: { worker_flavor own ≡ 0 },
    ghost owns: { (worker_view own).owns ≡ true },
    ghost live: { (worker_view own).live ≡ true },
    ghost count: { (worker_view own).count ≡ pushed },
    ghost index: { worker_index own ≤ pushed },
    ghost within: { pushed ≤ room },
    ghost fits: { room ≤ worker_capacity own },
}
