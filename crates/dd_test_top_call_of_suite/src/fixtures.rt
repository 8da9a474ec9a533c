ghost use Rattle.std.specs.Prelude.{◌≡◌, ◌<◌, List, None};
ghost use Rattle.dd_ports.specs.Stores.{memory_store_held};

use dd_ports::{MemorySink, MemoryStore, OpenGate, Sink, Store, SureSink, SureStore};
use dd_suite::run;
use dd_suite_tasks::Status;
use std::alloc::Global;
use std::process::Abort;
use std::rc::RcStr;
use std::sync::Wait;
use std::thread::Threads;

/// Which call of the store fails, and what it leaves, and which write of the first run fails; 0 is
/// none.
#[derive(Clone, Copy, Debug)]
pub(crate) struct Faults {
    pub(crate) call: u64,
    pub(crate) keeps_new: bool,
    pub(crate) write: u64,
}

/// Returns the words of a command.
pub(crate) fn words_of<R: Abort>(rt: &R, alloc: Global, texts: &[&str]) -> Vec<RcStr> {
    let mut words = Vec::new(alloc);
    for text in texts {
        let word = RcStr::from_str(alloc, text).expect(rt, "a word");
        words.push(word).expect(rt, "room for a word");
    }
    words
}

/// A store in which no name holds anything, and whose call of this number fails.
pub(crate) fn store_of<R: Abort>(rt: &R, alloc: Global, call: u64, keeps_new: bool) -> MemoryStore
    ensures { (name : List _) → memory_store_held result name ≡ None }
{
    let calls = Vec::from_slice(alloc, &[call]).expect(rt, "a number");
    MemoryStore::new(alloc, calls, keeps_new)
}

/// A store that holds this file under `f`.
pub(crate) fn store_with<R: Abort>(rt: &R, alloc: Global, file: &str) -> SureStore {
    let mut store = SureStore::new(alloc);
    let put = store.put("f", file.as_bytes());
    assert_eq!(rt; put, Ok(()));
    store
}

/// Returns a sink that takes at most `most` bytes at a time, and fails at the write of this number;
/// 0 is none.
pub(crate) fn sink_failing_at<R: Abort>(
    rt: &R,
    alloc: Global,
    write: u64,
    most: usize,
) -> MemorySink
    requires { 0 < most }
{
    let writes = Vec::from_slice(alloc, &[write]).expect(rt, "a number");
    MemorySink::new(alloc, writes, most)
}

/// Runs the program with these words over a store and two sinks, with an open gate.
pub(crate) fn run_words<R: Threads + Wait + Sync + Abort, S: Store, O: Sink, E: Sink>(
    rt: &R,
    alloc: Global,
    texts: &[&str],
    store: &mut S,
    out: &mut O,
    err: &mut E,
) -> Status {
    let words = words_of(rt, alloc, texts);
    run(rt, alloc, &words, store, out, err, &OpenGate::new())
}

/// Runs the program with these words over a store and a sink. It checks how the program ends, and
/// the line that it writes.
pub(crate) fn run_to_end<R: Threads + Wait + Sync + Abort, S: Store, O: Sink>(
    rt: &R,
    alloc: Global,
    texts: &[&str],
    store: &mut S,
    out: &mut O,
    (status, line): (Status, &str),
) {
    let mut err = SureSink::new(alloc);
    assert_eq!(rt; run_words(rt, alloc, texts, store, out, &mut err), status);
    assert_eq!(rt; err.held(), line.as_bytes());
}

/// Returns the same with an empty file under `f`, which is to stay as it is, where the end has to
/// be done.
fn run_beside_a_file<R: Threads + Wait + Sync + Abort>(
    rt: &R,
    alloc: Global,
    texts: &[&str],
    out: &mut SureSink,
) {
    let mut store = store_with(rt, alloc, "");
    run_to_end(rt, alloc, texts, &mut store, out, (Status::Done, ""));
    assert_eq!(rt; store.held("f"), Some(b"".as_slice()));
}

/// What the program writes with these words, with which it is to end as done.
pub(crate) fn written<R: Threads + Wait + Sync + Abort>(
    rt: &R,
    alloc: Global,
    texts: &[&str],
) -> SureSink {
    let mut out = SureSink::new(alloc);
    run_beside_a_file(rt, alloc, texts, &mut out);
    out
}
