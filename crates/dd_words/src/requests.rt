ghost use Rattle.std.specs.Prelude.{ℕ, Option, IfSome, IfNone};
ghost use Rattle.dd_model.specs.declared.requests.Request.{Request};
ghost use Rattle.dd_front_jobs.specs.declared.pace.Pace.{Pace as Numbers};
ghost use Rattle.dd_words.specs.Grammar.{IsRequested, IsRun};

use crate::given::Settings;
use crate::settings::Setting;
use crate::values::read_number_in;
use dd_front_jobs::Pace;
use dd_model::Request;

/// How a catalogue is run.
#[derive(Clone, Copy)]
pub(crate) struct RunSettings {
    /// By how many workers, and with how many jobs in a round.
    pub pace: Pace,
    /// After how many lines it pauses.
    pub pause: Option<u32>,
}

/// The request of an argument and settings.
pub(crate) fn read_request(chambers: &str, settings: &Settings<'_>) -> Option<Request>
    ensures some { IfSome result (IsRequested chambers.now settings.now) }
    ensures none { IfNone result ((q : Request) → IsRequested chambers.now settings.now q → ⊥) }
{
    let chambers = read_number_in(chambers, 1, 36)?;
    let tiles = settings.number_or(Setting::Tiles, 1, 36, 0)?;
    let vertices = settings.number_or(Setting::Vertices, 1, 36, 0)?;
    let faces = settings.set_of(Setting::Faces, Setting::LeastFace)?;
    let degrees = settings.set_of(Setting::Degrees, Setting::LeastDegree)?;
    let minimal = settings.flag_if_given(Setting::Minimal)?;
    Some(Request {
        chambers,
        tiles,
        vertices,
        faces,
        degrees,
        minimal,
    })
}

/// How the settings ask a catalogue to be run.
pub(crate) fn read_run(settings: &Settings<'_>) -> Option<RunSettings>
    ensures some { IfSome result (λ run. IsRun settings.now run.pace run.pause) }
    ensures none { IfNone result ((pace : Numbers) (pause : Option ℕ)
        → IsRun settings.now pace pause → ⊥) }
{
    let workers = settings.number_or(Setting::Workers, 1, 64, 1)?;
    let round = settings.number_or(Setting::Round, 1, 4096, 64)?;
    let pause = settings.number_if_given(Setting::Pause, 1, 1_000_000_000)?;
    let pace = Pace::new(workers, round)?;
    Some(RunSettings { pace, pause })
}
