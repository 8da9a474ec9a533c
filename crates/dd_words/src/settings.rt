ghost use Rattle.std.specs.Prelude.{◌≡◌, ◌↔◌, IsTrue};
ghost use Rattle.dd_words.specs.SettingNames.{word_of, has_value, has_setting};

use crate::verbs::Verb;

/// What an option of a command sets.
#[derive(Clone, Copy, PartialEq, Eq)]
pub(crate) enum Setting {
    /// The most classes of tiles.
    Tiles,
    /// The most classes of vertices.
    Vertices,
    /// The least number of edges of a tile.
    LeastFace,
    /// The least degree of a vertex.
    LeastDegree,
    /// The numbers of edges of tiles.
    Faces,
    /// The degrees of vertices.
    Degrees,
    /// Only minimal symbols, a flag.
    Minimal,
    /// The number of workers.
    Workers,
    /// The number of jobs in a round.
    Round,
    /// The number of lines before a pause.
    Pause,
    /// The name under which the checkpoint is kept.
    Checkpoint,
    /// The shape of a cell.
    Cell,
}

/// A setting that was given, and its value; that of a flag is empty.
#[derive(Clone, Copy)]
pub(crate) struct Given<'a> {
    /// The setting.
    pub setting: Setting,
    /// Its value.
    pub value: &'a str,
}

impl Setting {
    /// The name of the option.
    pub fn name(self) -> &'static str
        ensures { result.now ≡ word_of self }
    {
        match self {
            Setting::Tiles => "tiles",
            Setting::Vertices => "vertices",
            Setting::LeastFace => "least-face",
            Setting::LeastDegree => "least-degree",
            Setting::Faces => "faces",
            Setting::Degrees => "degrees",
            Setting::Minimal => "minimal",
            Setting::Workers => "workers",
            Setting::Round => "round",
            Setting::Pause => "pause",
            Setting::Checkpoint => "checkpoint",
            Setting::Cell => "cell",
        }
    }

    /// Returns whether the setting has a value, and is no flag.
    pub fn has_value(self) -> bool
        ensures { result ≡ has_value self }
    {
        match self {
            Setting::Minimal => false,
            _ => true,
        }
    }

    /// Returns whether the setting is one of the command.
    pub fn is_of(self, verb: Verb) -> bool
        ensures { result ≡ has_setting verb self }
    {
        match verb {
            Verb::Catalogue | Verb::Shard => !matches!(self, Setting::Cell),
            Verb::Resume | Verb::ResumeShard => {
                matches!(self, Setting::Workers | Setting::Round | Setting::Pause)
            }
            Verb::Draw => matches!(self, Setting::Cell),
            _ => false,
        }
    }

    /// Returns whether the two settings are one.
    pub fn is(self, other: Setting) -> bool
        ensures { IsTrue result ↔ (self ≡ other) }
    {
        self == other
    }
}
