ghost use Rattle.std.specs.Prelude.{◌≡◌, ◌∷◌, map, IfOk, IfSome, IfNone};
ghost use Rattle.dd_front_jobs.specs.declared.shards.Shard.{Shard as Numbers};
ghost use Rattle.std.specs.Rc.{rc_str_bytes};
ghost use Rattle.dd_words.specs.declared.commands.Command.{Command};
ghost use Rattle.dd_words.specs.Laying.{texts};
ghost use Rattle.dd_words.specs.Grammar.{IsCatalogue, HasNoCatalogue, IsShardOf, IsCommand};
ghost use Rattle.dd_words.specs.Reading.{IsReadAs};

use crate::commands::{Command, FileKind};
use crate::fault::WordsFault;
use crate::given::{Settings, read_name, read_names};
use crate::layouts::lay_out;
use crate::names::Name;
use crate::requests::{RunSettings, read_request, read_run};
use crate::settings::Setting;
use crate::values::read_number_in;
use crate::verbs::Verb;
use dd_front_jobs::Shard;
use dd_model::Request;
use dd_opword::OpWord;
use std::alloc::Global;
use std::rc::RcStr;

/// The greatest number from which an exercise starts.
const LAST_START: u32 = 2_147_483_647;

/// The most items of an exercise.
const MOST_ITEMS: u32 = 10_000;

/// The most shards.
const MOST_SHARDS: u32 = 8;

/// The most files of a merge.
const MOST_FILES: usize = 8;

/// The command that the words after the program's name ask for.
pub fn read_words(alloc: Global, words: &[RcStr]) -> Result<Command, WordsFault>
    ensures command { IfOk result (IsCommand (map rc_str_bytes words.now)) }
    ensures not_taken { result ≡ Err WordsFault.NotTaken → (c : Command)
        → IsCommand (map rc_str_bytes words.now) c → ⊥ }
{
    let [first, rest @ ..] = words else {
        return Err(WordsFault::NotTaken);
    };
    read_from(alloc, first, rest)
}

/// The command of a first word and the others.
fn read_from(alloc: Global, first: &RcStr, rest: &[RcStr]) -> Result<Command, WordsFault>
    ensures command { IfOk result
        (IsCommand (rc_str_bytes first.now ∷ map rc_str_bytes rest.now)) }
    ensures not_taken { result ≡ Err WordsFault.NotTaken → (c : Command)
        → IsCommand (rc_str_bytes first.now ∷ map rc_str_bytes rest.now) c → ⊥ }
{
    let Some(verb) = Verb::named(first.as_str()) else {
        return Err(WordsFault::NotTaken);
    };
    let laid = lay_out(alloc, verb, rest)?;
    let settings = Settings {
        list: laid.settings,
    };
    let arguments = laid.arguments.as_slice();
    read_command(alloc, verb, arguments, &settings)
}

/// The command of a verb with these arguments and settings.
fn read_command(
    alloc: Global,
    verb: Verb,
    arguments: &[&str],
    settings: &Settings<'_>,
) -> Result<Command, WordsFault>
    ensures command { IfOk result (IsReadAs verb (texts arguments.now) settings.now) }
    ensures not_taken { result ≡ Err WordsFault.NotTaken → (c : Command)
        → IsReadAs verb (texts arguments.now) settings.now c → ⊥ }
{
    match verb {
        Verb::Catalogue => read_catalogue(alloc, arguments, settings),
        Verb::Resume => read_resume(alloc, arguments, settings),
        Verb::Shard => read_shard(alloc, arguments, settings),
        Verb::ResumeShard => read_resumed_shard(alloc, arguments, settings),
        Verb::Draw => read_drawing(alloc, arguments, settings),
        Verb::Exercise => read_exercise(arguments, settings),
        Verb::Apply => read_application(alloc, arguments, settings),
        Verb::Merge => read_merge(alloc, arguments, settings),
        Verb::File(kind) => read_file(alloc, kind, arguments, settings),
    }
}

/// A catalogue with these arguments and settings.
fn read_catalogue(
    alloc: Global,
    arguments: &[&str],
    settings: &Settings<'_>,
) -> Result<Command, WordsFault>
    ensures command { IfOk result (IsReadAs Verb.Catalogue (texts arguments.now) settings.now) }
    ensures not_taken { result ≡ Err WordsFault.NotTaken → (c : Command)
        → IsReadAs Verb.Catalogue (texts arguments.now) settings.now c → ⊥ }
{
    let [chambers] = arguments else {
        return Err(WordsFault::NotTaken);
    };
    let asked = read_asked(alloc, chambers, settings)?;
    Ok(Command::Catalogue {
        request: asked.request,
        pace: asked.run.pace,
        pause: asked.run.pause,
        checkpoint: asked.checkpoint,
    })
}

/// A shard of a catalogue with these arguments and settings.
fn read_shard(
    alloc: Global,
    arguments: &[&str],
    settings: &Settings<'_>,
) -> Result<Command, WordsFault>
    ensures command { IfOk result (IsReadAs Verb.Shard (texts arguments.now) settings.now) }
    ensures not_taken { result ≡ Err WordsFault.NotTaken → (c : Command)
        → IsReadAs Verb.Shard (texts arguments.now) settings.now c → ⊥ }
{
    let [index, count, chambers] = arguments else {
        return Err(WordsFault::NotTaken);
    };
    let Some(shard) = shard_of(index, count) else {
        return Err(WordsFault::NotTaken);
    };
    let asked = read_asked(alloc, chambers, settings)?;
    Ok(Command::Shard {
        shard,
        request: asked.request,
        pace: asked.run.pace,
        pause: asked.run.pause,
        checkpoint: asked.checkpoint,
    })
}

/// The shard of two words, and None if they are not the numbers of one.
fn shard_of(index: &str, count: &str) -> Option<Shard>
    ensures some { IfSome result (IsShardOf index.now count.now) }
    ensures none { IfNone result
        ((shard : Numbers) → IsShardOf index.now count.now shard → ⊥) }
{
    let index = read_number_in(index, 1, MOST_SHARDS)?;
    let count = read_number_in(count, 1, MOST_SHARDS)?;
    Shard::new(index, count)
}

/// What the words of a catalogue and of a shard ask for.
#[derive(Drop)]
struct Asked {
    request: Request,
    run: RunSettings,
    checkpoint: Option<Name>,
}

/// What a word and settings ask for that a catalogue and a shard have in common.
fn read_asked(alloc: Global, chambers: &str, settings: &Settings<'_>) -> Result<Asked, WordsFault>
    ensures asked { IfOk result (λ asked. IsCatalogue chambers.now settings.now
        asked.request asked.run.pace asked.run.pause asked.checkpoint) }
    ensures not_taken { result ≡ Err WordsFault.NotTaken
        → HasNoCatalogue chambers.now settings.now }
{
    let Some(request) = read_request(chambers, settings) else {
        return Err(WordsFault::NotTaken);
    };
    let Some(run) = read_run(settings) else {
        return Err(WordsFault::NotTaken);
    };
    let checkpoint = settings.name_if_given(alloc, Setting::Checkpoint)?;
    if run.pause.is_some() && checkpoint.is_none() {
        return Err(WordsFault::NotTaken);
    }
    Ok(Asked {
        request,
        run,
        checkpoint,
    })
}

/// A catalogue that is taken up again, with these arguments and settings.
fn read_resume(
    alloc: Global,
    arguments: &[&str],
    settings: &Settings<'_>,
) -> Result<Command, WordsFault>
    ensures command { IfOk result (IsReadAs Verb.Resume (texts arguments.now) settings.now) }
    ensures not_taken { result ≡ Err WordsFault.NotTaken → (c : Command)
        → IsReadAs Verb.Resume (texts arguments.now) settings.now c → ⊥ }
{
    let [name] = arguments else {
        return Err(WordsFault::NotTaken);
    };
    let Some(run) = read_run(settings) else {
        return Err(WordsFault::NotTaken);
    };
    Ok(Command::Resume {
        name: read_name(alloc, name)?,
        pace: run.pace,
        pause: run.pause,
    })
}

/// A shard that is resumed, with these arguments and settings.
fn read_resumed_shard(
    alloc: Global,
    arguments: &[&str],
    settings: &Settings<'_>,
) -> Result<Command, WordsFault>
    ensures command { IfOk result (IsReadAs Verb.ResumeShard (texts arguments.now) settings.now) }
    ensures not_taken { result ≡ Err WordsFault.NotTaken → (c : Command)
        → IsReadAs Verb.ResumeShard (texts arguments.now) settings.now c → ⊥ }
{
    let [name] = arguments else {
        return Err(WordsFault::NotTaken);
    };
    let Some(run) = read_run(settings) else {
        return Err(WordsFault::NotTaken);
    };
    Ok(Command::ResumeShard {
        name: read_name(alloc, name)?,
        pace: run.pace,
        pause: run.pause,
    })
}

/// A drawing with these arguments and settings.
fn read_drawing(
    alloc: Global,
    arguments: &[&str],
    settings: &Settings<'_>,
) -> Result<Command, WordsFault>
    ensures command { IfOk result (IsReadAs Verb.Draw (texts arguments.now) settings.now) }
    ensures not_taken { result ≡ Err WordsFault.NotTaken → (c : Command)
        → IsReadAs Verb.Draw (texts arguments.now) settings.now c → ⊥ }
{
    let [file] = arguments else {
        return Err(WordsFault::NotTaken);
    };
    let Some(frame) = settings.frame() else {
        return Err(WordsFault::NotTaken);
    };
    let file = read_name(alloc, file)?;
    Ok(Command::Draw { file, frame })
}

/// An exercise with these arguments.
fn read_exercise(arguments: &[&str], settings: &Settings<'_>) -> Result<Command, WordsFault>
    ensures command { IfOk result (IsReadAs Verb.Exercise (texts arguments.now) settings.now) }
    ensures not_taken { result ≡ Err WordsFault.NotTaken → (c : Command)
        → IsReadAs Verb.Exercise (texts arguments.now) settings.now c → ⊥ }
{
    let [start, count] = arguments else {
        return Err(WordsFault::NotTaken);
    };
    let Some(start) = read_number_in(start, 0, LAST_START) else {
        return Err(WordsFault::NotTaken);
    };
    let Some(count) = read_number_in(count, 0, MOST_ITEMS) else {
        return Err(WordsFault::NotTaken);
    };
    Ok(Command::Exercise { start, count })
}

/// A word of operations and a file with these arguments.
fn read_application(
    alloc: Global,
    arguments: &[&str],
    settings: &Settings<'_>,
) -> Result<Command, WordsFault>
    ensures command { IfOk result (IsReadAs Verb.Apply (texts arguments.now) settings.now) }
    ensures not_taken { result ≡ Err WordsFault.NotTaken → (c : Command)
        → IsReadAs Verb.Apply (texts arguments.now) settings.now c → ⊥ }
{
    let [word, file] = arguments else {
        return Err(WordsFault::NotTaken);
    };
    let Some(word) = OpWord::read(word) else {
        return Err(WordsFault::NotTaken);
    };
    let file = read_name(alloc, file)?;
    Ok(Command::Apply { word, file })
}

/// A merge of the files of these arguments.
fn read_merge(
    alloc: Global,
    arguments: &[&str],
    settings: &Settings<'_>,
) -> Result<Command, WordsFault>
    ensures command { IfOk result (IsReadAs Verb.Merge (texts arguments.now) settings.now) }
    ensures not_taken { result ≡ Err WordsFault.NotTaken → (c : Command)
        → IsReadAs Verb.Merge (texts arguments.now) settings.now c → ⊥ }
{
    if arguments.is_empty() || arguments.len() > MOST_FILES {
        return Err(WordsFault::NotTaken);
    }
    let files = read_names(alloc, arguments)?;
    Ok(Command::Merge { files })
}

/// A command on the file of these arguments.
fn read_file(
    alloc: Global,
    kind: FileKind,
    arguments: &[&str],
    settings: &Settings<'_>,
) -> Result<Command, WordsFault>
    ensures command { IfOk result (IsReadAs (Verb.File kind) (texts arguments.now) settings.now) }
    ensures not_taken { result ≡ Err WordsFault.NotTaken → (c : Command)
        → IsReadAs (Verb.File kind) (texts arguments.now) settings.now c → ⊥ }
{
    let [file] = arguments else {
        return Err(WordsFault::NotTaken);
    };
    let file = read_name(alloc, file)?;
    Ok(Command::File { kind, file })
}
