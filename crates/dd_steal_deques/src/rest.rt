ghost use Rattle.std.specs.Prelude.{◌≡◌, All};
ghost use Rattle.dd_steal_deques.specs.Hands.{HasNoPasses};

use crate::hand::Hand;
use dd_front::Naming;

/// What is left in the deques of a rack after its workers have ended.
#[derive(Drop)]
pub struct Rest<N: Naming> {
    pub(crate) hands: Vec<Hand<N>>,
    ghost joined: { All HasNoPasses hands.items },
}
