ghost use Rattle.std.specs.Prelude.{◌≡◌, false, IfOk};
ghost use Rattle.clap.specs.Words.{app_of, rule_of};
ghost use Rattle.dd_words.specs.Places.{name_of};
ghost use Rattle.dd_words.specs.Apps.{place_rule, setting_rule, bare_app, with_places, with_settings, app_for};

use crate::places::Place;
use crate::settings::Setting;
use crate::verbs::Verb;
use clap::{Arg, ArgAction, Command as App};
use std::alloc::{AllocError, Global};

/// All places of arguments, in their order.
pub static PLACES: [Place; 8] = [
    Place::First,
    Place::Second,
    Place::Third,
    Place::Fourth,
    Place::Fifth,
    Place::Sixth,
    Place::Seventh,
    Place::Eighth,
];

/// All settings.
pub static SETTINGS: [Setting; 12] = [
    Setting::Tiles,
    Setting::Vertices,
    Setting::LeastFace,
    Setting::LeastDegree,
    Setting::Faces,
    Setting::Degrees,
    Setting::Minimal,
    Setting::Workers,
    Setting::Round,
    Setting::Pause,
    Setting::Checkpoint,
    Setting::Cell,
];

/// Returns what clap needs of a verb: its arguments and its settings, and nothing of clap's own.
pub(crate) fn app_for<'a>(alloc: Global, verb: Verb) -> Result<App<'a>, AllocError>
    ensures { IfOk result (λ app. app_of app ≡ app_for verb) }
{
    let app = with_places(bare_app(alloc), alloc, verb, PLACES.as_slice())?;
    with_settings(app, alloc, verb, SETTINGS.as_slice())
}

/// The arguments of a verb, out of these places, join the app.
fn with_places<'a>(
    app: App<'a>,
    alloc: Global,
    verb: Verb,
    places: &[Place],
) -> Result<App<'a>, AllocError>
    ensures { IfOk result (λ more.
        app_of more ≡ with_places verb (app_of app.entry) places.now) }
{
    let mut more = app;
    for place in places {
        if !place.is_of(verb) {
            continue;
        }
        more = more.arg(argument(alloc, *place))?;
    }
    Ok(more)
}

/// No arguments, no help and no version.
fn bare_app<'a>(alloc: Global) -> App<'a>
    ensures { app_of result ≡ bare_app }
{
    App::new(alloc, "dressline")
        .no_binary_name(true)
        .disable_help_flag(true)
        .disable_version_flag(true)
}

/// An argument that is a text.
fn argument<'a>(alloc: Global, place: Place) -> Arg<'a>
    ensures rule { rule_of result ≡ place_rule (name_of place) }
    ensures local { result.global ≡ false }
{
    let name: &'a str = place.name();
    Arg::new(alloc, name).action(ArgAction::Set)
}

/// The settings of a verb, out of these, join the app.
fn with_settings<'a>(
    app: App<'a>,
    alloc: Global,
    verb: Verb,
    settings: &[Setting],
) -> Result<App<'a>, AllocError>
    ensures { IfOk result (λ more.
        app_of more ≡ with_settings verb (app_of app.entry) settings.now) }
{
    let mut more = app;
    for setting in settings {
        if !setting.is_of(verb) {
            continue;
        }
        more = more.arg(option(alloc, *setting))?;
    }
    Ok(more)
}

/// A setting: an option with a text, or a flag.
fn option<'a>(alloc: Global, setting: Setting) -> Arg<'a>
    ensures rule { rule_of result ≡ setting_rule setting }
    ensures local { result.global ≡ false }
{
    let action = if setting.has_value() {
        ArgAction::Set
    } else {
        ArgAction::SetTrue
    };
    let name: &'a str = setting.name();
    Arg::new(alloc, name).long(name).action(action)
}
