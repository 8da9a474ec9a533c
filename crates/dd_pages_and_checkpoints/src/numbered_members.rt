ghost use Rattle.std.specs.Prelude.{◌+◌, ◌<◌, ◌^◌, length};

use dd_front::Members;

/// Members whose lines one thread makes, and how many lines come before theirs.
#[derive(Drop)]
pub(crate) struct NumberedMembers {
    pub before: u64,
    pub members: Members,
    ghost few: { before + length members < 2 ^ 64 },
}
