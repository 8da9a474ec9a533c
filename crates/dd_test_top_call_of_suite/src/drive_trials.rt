ghost use Rattle.std.specs.Prelude.{IfSome, map};
ghost use Rattle.std.specs.Rc.{rc_str_bytes};
ghost use Rattle.dd_suite_chains.specs.Words.{AskToKeep};

use crate::fixtures::{Faults, sink_failing_at, store_of, words_of};
use dd_ports::{OpenGate, SureSink, SureStore};
use dd_suite::run;
use dd_suite_chains::{Drive, drive};
use dd_suite_tasks::Status;
use dd_words::{Command, Name, read_words};
use std::alloc::Global;
use std::process::Abort;
use std::rc::RcStr;
use std::sync::Wait;
use std::thread::Threads;

/// The words of the first run.
const FIRST: [&str; 6] = ["catalogue", "2", "--round", "1", "--checkpoint", "c"];

/// The name under which words of a catalogue keep a checkpoint.
fn kept_name(alloc: Global, words: &[RcStr]) -> Option<Name>
    ensures { IfSome result (AskToKeep (map rc_str_bytes words.now)) }
{
    match read_words(alloc, words) {
        Ok(command) => match command {
            Command::Catalogue { checkpoint, .. } => checkpoint,
            _ => None,
        },
        Err(_) => None,
    }
}

/// What a chain of at most two runs comes to.
fn driven<R: Threads + Wait + Sync + Abort>(rt: &R, alloc: Global, faults: Faults) -> Drive {
    let words = words_of(rt, alloc, FIRST.as_slice());
    let name = kept_name(alloc, &words).expect(rt, "words that keep a checkpoint");
    let mut store = store_of(rt, alloc, faults.call, faults.keeps_new);
    let first = sink_failing_at(rt, alloc, faults.write, 1000);
    let mut sinks = [first, sink_failing_at(rt, alloc, 0, 1000)];
    let driven = drive(
        rt,
        alloc,
        &words,
        name.as_str(),
        &mut store,
        &mut sinks,
        &OpenGate::new(),
    );
    driven.expect(rt, "a chain")
}

/// Runs the program once, which is to write all lines.
fn run_once<R: Threads + Wait + Sync + Abort>(rt: &R, alloc: Global, out: &mut SureSink) {
    let words = words_of(rt, alloc, &["catalogue", "2"]);
    let (mut store, mut err) = (SureStore::new(alloc), SureSink::new(alloc));
    let gate = OpenGate::new();
    let status = run(rt, alloc, &words, &mut store, out, &mut err, &gate);
    assert_eq!(rt; status, Status::Done);
}

/// The lines that one run writes.
fn whole<R: Threads + Wait + Sync + Abort>(rt: &R, alloc: Global) -> SureSink {
    let mut out = SureSink::new(alloc);
    run_once(rt, alloc, &mut out);
    let lines = out.held().iter().filter(|byte| **byte == b'\n').count();
    assert_eq!(rt; lines, 18);
    out
}

/// Checks that a chain in which this fails ends with a status, after `runs` runs that write this
/// text.
fn check_drive<R: Threads + Wait + Sync + Abort>(
    rt: &R,
    alloc: Global,
    faults: Faults,
    (status, runs): (Status, u32),
    text: &[u8],
) {
    let drive = driven(rt, alloc, faults);
    assert_eq!(rt; drive.status, status, "{faults:?}");
    assert_eq!(rt; drive.runs, runs, "{faults:?}");
    assert_eq!(rt; drive.joined.as_slice(), text, "{faults:?}");
}

// Each call of the store fails in turn. The first one writes the first checkpoint: if it fails and
// leaves nothing, there is nothing to resume from. The first run makes nine calls, so the tenth is
// never made.
#[test]
fn a_store_that_fails(rt: HostRuntime) {
    let lines = whole(&rt, rt.alloc());
    for call in 1..=10u64 {
        for keeps_new in [false, true] {
            let faults = Faults {
                call,
                keeps_new,
                write: 0,
            };
            let (status, runs, text) = match (call, keeps_new) {
                (1, false) => (Status::StoreFault, 1, b"".as_slice()),
                (10, _) => (Status::Done, 1, lines.held()),
                _ => (Status::Done, 2, lines.held()),
            };
            check_drive(&rt, rt.alloc(), faults, (status, runs), text);
        }
    }
}

// Each write of the first run fails in turn. That run makes eight, so that the ninth is never made.
#[test]
fn a_sink_that_fails(rt: HostRuntime) {
    let lines = whole(&rt, rt.alloc());
    for write in 1..=9u64 {
        let faults = Faults {
            call: 0,
            keeps_new: false,
            write,
        };
        let end = (Status::Done, if write == 9 { 1 } else { 2 });
        check_drive(&rt, rt.alloc(), faults, end, lines.held());
    }
}
