ghost use Rattle.std.specs.Prelude.{◌≡◌, ◌≤◌, ◌<◌};

use crate::path_class::PathClass;

/// What stands at an end of a path: the other end, and the class of the path.
#[derive(Clone, Copy, Drop)]
pub(crate) struct End {
    pub(crate) other: u8,
    pub(crate) class: PathClass,
    ghost other_inside: { other < 74 },
}

impl End {
    /// No end.
    pub(crate) fn none() -> End
        ensures { result.class.number ≡ 0 }
    {
        End {
            other: 0,
            class: PathClass::of(0),
        }
    }

    /// What stands at the other end of a path that goes on to a further end at this one, or is
    /// fixed there: nothing where an involution fixes that other end, too.
    pub(crate) fn beyond(self, further: u8, class: PathClass) -> End
        requires { further < 74 }
        ensures fixed { 64 ≤ self.class.number → result.class.number ≡ 0 }
        ensures other { self.class.number < 64 → result.other ≡ further }
        ensures class { self.class.number < 64 → result.class.number ≡ class.number }
    {
        if self.class.is_capped() {
            return End::none();
        }
        End {
            other: further,
            class,
        }
    }
}
