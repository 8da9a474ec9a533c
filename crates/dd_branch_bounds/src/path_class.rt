ghost use Rattle.std.specs.Prelude.{◌≡◌, ◌+◌, ◌%◌, ◌≤◌, ◌<◌, ◌↔◌, ℕ, IsTrue};
ghost use Rattle.dd_branch_bounds.specs.Classes.{joined_class};

/// What is known of a path in one number: how many chambers it has, and 64 more where an involution
/// is known to fix one of them; 0 where there is no path.
///
/// A path of 3 chambers has the class 3, and 67 if one of them is known to be fixed. Joined to a
/// path of the class 2 it has the class 5, or 69. The classes 67 and 66 make 69, too.
#[derive(Clone, Copy, Drop)]
pub(crate) struct PathClass {
    number: u8,
    ghost small: { number < 128 },
}

impl PathClass {
    /// Returns the class of a path of `chambers` chambers with open ends.
    pub(crate) fn of(chambers: u8) -> PathClass
        requires { chambers < 64 }
        ensures { result.number ≡ chambers }
    {
        PathClass { number: chambers }
    }

    /// The number of chambers.
    pub(crate) fn chambers(self) -> u8
        ensures { result ≡ self.number % 64 }
    {
        self.number % 64
    }

    /// Returns whether an involution is known to fix a chamber.
    pub(crate) fn is_capped(self) -> bool
        ensures { IsTrue result ↔ (64 ≤ self.number) }
    {
        self.number >= 64
    }

    /// Its place in a list of all classes.
    pub(crate) fn place(self) -> usize
        ensures place { result ≡ self.number }
        ensures inside { result < 128 }
    {
        usize::from(self.number)
    }

    /// The class of two paths in one.
    pub(crate) fn joined(self, other: PathClass) -> PathClass
        requires { self.number % 64 + other.number % 64 < 64 }
        ensures { result.number ≡ joined_class self.number other.number }
    {
        let number = self.number + other.number;
        PathClass {
            number: number - number / 128 * 64,
        }
    }

    /// The class of the path where an involution fixes one of its chambers.
    pub(crate) fn capped(self) -> PathClass
        ensures { result.number ≡ 64 + self.number % 64 }
    {
        PathClass {
            number: 64 + self.number % 64,
        }
    }
}
