ghost use Rattle.std.specs.Prelude.{◌≡◌, ℕ, List, map, IfOk, MatchOption};
ghost use Rattle.std.specs.Rc.{rc_str_bytes};
ghost use Rattle.dd_words.specs.declared.commands.Command.TheVariants as commands;
ghost use Rattle.dd_suite_tasks.specs.Words.{AreTaken, file_command};
ghost use Rattle.dd_words.specs.declared.commands.Command.{Command};
ghost use Rattle.dd_suite_tasks.specs.Commands.{IsBegunBy, IsTaskOf, AskForTask};

use crate::task::Task;
use dd_check::ResumeKind;
use dd_front_jobs::{Pace, Portion};
use dd_model::Memory;
use dd_suite_commands::{FileCommand, SymbolCommand};
use dd_words::{Command, FileKind, Name, WordsFault, read_words};
use std::alloc::Global;
use std::rc::RcStr;

/// What the words ask the program to do, and None exactly where they are not taken.
pub fn read_task(alloc: Global, words: &[RcStr]) -> Result<Option<Task>, Memory>
    ensures { IfOk result (λ task. MatchOption task (¬ AreTaken (map rc_str_bytes words.now))
        (AskForTask (map rc_str_bytes words.now))) }
{
    match read_words(alloc, words) {
        Ok(command) => Ok(Some(task_of(command))),
        Err(WordsFault::NotTaken) => Ok(None),
        Err(WordsFault::Memory) => Err(Memory),
    }
}

/// The task of a command.
fn task_of(command: Command) -> Task
    ensures { IsTaskOf command result }
{
    match command {
        Command::Catalogue {
            request,
            pace,
            pause,
            checkpoint,
        } => {
            let portion = Portion::whole(request);
            task_for(portion, pace, pause, checkpoint)
        }
        Command::Shard {
            shard,
            request,
            pace,
            pause,
            checkpoint,
        } => {
            let shard = Some(shard);
            let portion = Portion { request, shard };
            task_for(portion, pace, pause, checkpoint)
        }
        Command::Resume { name, pace, pause } => Task::Resume {
            kind: ResumeKind::Catalogues,
            name,
            pace,
            pause,
        },
        Command::ResumeShard { name, pace, pause } => Task::Resume {
            kind: ResumeKind::Shards,
            name,
            pace,
            pause,
        },
        Command::File { kind, file } => Task::OnFile(command_of(kind), file),
        Command::Apply { word, file } => {
            Task::OnFile(FileCommand::Symbols(SymbolCommand::Applied(word)), file)
        }
        Command::Draw { file, frame } => Task::OnFile(FileCommand::Draw(frame), file),
        Command::Merge { files } => Task::Merge(files),
        Command::Exercise { start, count } => Task::Exercise { start, count },
    }
}

/// The task of a catalogue or a shard, which keeps a checkpoint where it has a name for it.
fn task_for(portion: Portion, pace: Pace, pause: Option<u32>, name: Option<Name>) -> Task
    ensures { (c : Command) → IsBegunBy portion name pace pause c → IsTaskOf c result }
{
    match name {
        Some(name) => Task::Kept {
            portion,
            name,
            pace,
            pause,
        },
        None => Task::Alone(portion, pace),
    }
}

/// The command on files of a kind.
fn command_of(kind: FileKind) -> FileCommand
    ensures { (name : List ℕ) → commands.File kind name ≡ file_command result name }
{
    match kind {
        FileKind::Info => FileCommand::Info,
        FileKind::Sheets => FileCommand::Sheets,
        FileKind::Lines => FileCommand::Symbols(SymbolCommand::Lines),
        FileKind::Canon => FileCommand::Symbols(SymbolCommand::Canon),
        FileKind::Minimal => FileCommand::Symbols(SymbolCommand::Minimal),
        FileKind::Dual => FileCommand::Symbols(SymbolCommand::Dual),
        FileKind::Oriented => FileCommand::Symbols(SymbolCommand::Oriented),
        FileKind::Torus => FileCommand::Symbols(SymbolCommand::Torus),
        FileKind::Derived(operation) => FileCommand::Symbols(SymbolCommand::Derived(operation)),
    }
}
