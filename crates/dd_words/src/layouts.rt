ghost use Rattle.std.specs.Prelude.{◌≡◌, ◌≢◌, ◌++◌, [], map, option_map, IfOk};
ghost use Rattle.std.specs.Rc.{rc_str_bytes};
ghost use Rattle.clap.specs.Words.{fault_of, found_of, rows_of};
ghost use Rattle.dd_words.specs.Apps.{app_for};
ghost use Rattle.dd_words.specs.Laying.{texts, arguments_in, settings_in};
ghost use Rattle.dd_words.specs.Settings.{given_of};
ghost use Rattle.dd_words.specs.Matching.{IsValueRead, AreRead, AreMatched, arguments_at, listed, given_by};

use crate::apps::{PLACES, SETTINGS, app_for};
use crate::fault::WordsFault;
use crate::places::Place;
use crate::settings::{Given, Setting};
use crate::verbs::Verb;
use clap::ArgMatches;
use std::alloc::{AllocError, Global};
use std::rc::RcStr;

/// The arguments and the settings of a command.
#[derive(Drop)]
pub(crate) struct Laid<'a> {
    /// The arguments, in their order.
    pub arguments: Vec<&'a str>,
    /// The settings.
    pub settings: Vec<Given<'a>>,
}

/// The arguments and the settings of the words after a verb, as clap reads them.
pub(crate) fn lay_out<'a>(
    alloc: Global,
    verb: Verb,
    words: &'a [RcStr],
) -> Result<Laid<'a>, WordsFault>
    ensures matched { IfOk result (λ laid.
        AreMatched verb (map rc_str_bytes words.now) (arguments_in laid) (settings_in laid)) }
    ensures not_taken { result ≡ Err WordsFault.NotTaken
        → fault_of (app_for verb) (map rc_str_bytes words.now) ≢ [] }
{
    let matches = match app_for(alloc, verb)?.try_get_matches_from(words) {
        Ok(matches) => matches,
        Err(error) => return Err(WordsFault::of(&error)),
    };
    let arguments = read_arguments(alloc, &matches, PLACES.as_slice())?;
    let settings = read_settings(alloc, &matches, SETTINGS.as_slice())?;
    Ok(Laid {
        arguments,
        settings,
    })
}

/// The arguments that clap found at these places.
fn read_arguments<'a>(
    alloc: Global,
    matches: &ArgMatches<'a>,
    places: &[Place],
) -> Result<Vec<&'a str>, AllocError>
    ensures { IfOk result (λ arguments.
        texts arguments.items ≡ arguments_at (rows_of (found_of matches.now)) places.now) }
{
    let mut arguments = Vec::new(alloc);
    for place in places {
        add_argument(&mut arguments, matches.get_str(place.name()))?;
    }
    Ok(arguments)
}

/// An argument that may be there joins the others.
fn add_argument<'a>(
    arguments: &mut Vec<&'a str>,
    argument: Option<&'a str>,
) -> Result<(), AllocError>
    ensures { IfOk result (λ _. texts arguments.new.items ≡ texts arguments.old.items
        ++ listed (option_map (λ s. s.now) argument.entry)) }
{
    if let Some(word) = argument {
        arguments.push(word)?;
    }
    Ok(())
}

/// The settings that clap found, of these.
fn read_settings<'a>(
    alloc: Global,
    matches: &ArgMatches<'a>,
    settings: &[Setting],
) -> Result<Vec<Given<'a>>, AllocError>
    ensures { IfOk result (λ given.
        AreRead (rows_of (found_of matches.now)) settings.now (map given_of given.items)) }
{
    let mut given = Vec::new(alloc);
    for setting in settings {
        add_setting(&mut given, *setting, value_in(matches, *setting))?;
    }
    Ok(given)
}

/// A setting that may be given joins the others.
fn add_setting<'a>(
    given: &mut Vec<Given<'a>>,
    setting: Setting,
    value: Option<&'a str>,
) -> Result<(), AllocError>
    ensures { IfOk result (λ _. map given_of given.new.items ≡ map given_of given.old.items
        ++ given_by setting (option_map (λ s. s.now) value.entry)) }
{
    if let Some(value) = value {
        given.push(Given { setting, value })?;
    }
    Ok(())
}

/// The value that clap found of a setting; that of a flag is empty.
fn value_in<'a>(matches: &ArgMatches<'a>, setting: Setting) -> Option<&'a str>
    ensures { IsValueRead (rows_of (found_of matches.now)) setting
        (option_map (λ s. s.now) result) }
{
    if setting.has_value() {
        return matches.get_str(setting.name());
    }
    if matches.get_flag(setting.name()) {
        Some("")
    } else {
        None
    }
}
