ghost use Rattle.std.specs.Prelude.{◌≡◌};
ghost use Rattle.dd_words.specs.Places.{name_of, has_place};

use crate::verbs::Verb;

/// The place of an argument of a command.
#[derive(Clone, Copy)]
pub(crate) enum Place {
    /// The first argument.
    First,
    /// The second argument.
    Second,
    /// The third argument.
    Third,
    /// The fourth argument.
    Fourth,
    /// The fifth argument.
    Fifth,
    /// The sixth argument.
    Sixth,
    /// The seventh argument.
    Seventh,
    /// The eighth argument.
    Eighth,
}

impl Place {
    /// Returns the name by which clap keeps the argument.
    pub fn name(self) -> &'static str
        ensures { result.now ≡ name_of self }
    {
        match self {
            Place::First => "first",
            Place::Second => "second",
            Place::Third => "third",
            Place::Fourth => "fourth",
            Place::Fifth => "fifth",
            Place::Sixth => "sixth",
            Place::Seventh => "seventh",
            Place::Eighth => "eighth",
        }
    }

    /// Returns whether a command has the argument.
    pub fn is_of(self, verb: Verb) -> bool
        ensures { result ≡ has_place verb self }
    {
        match verb {
            Verb::Exercise | Verb::Apply => matches!(self, Place::First | Place::Second),
            Verb::Shard => matches!(self, Place::First | Place::Second | Place::Third),
            Verb::Merge => true,
            _ => matches!(self, Place::First),
        }
    }
}
