use crate::fixtures::{run_to_end, run_words, sink_failing_at, store_with};
use dd_ports::{MemorySink, MemoryStore, Store, SureSink, SureStore};
use dd_suite_tasks::Status;
use std::alloc::Global;
use std::process::Abort;
use std::sync::Wait;
use std::thread::Threads;

const ONE_CHAMBER: &str = "<1.1:1:1,1,1:3,6>\n<1.2:1:1,1,1:4,4>\n<1.3:1:1,1,1:6,3>\n";

const LEAST: &str = "<1.1:3:1 2 3,1 3,2 3:4 8,3>\n";

const OTHER: &str = "<7.3:3:1 2 3,2 3,3 2:8 4,3>";

/// The words of a call, and what it writes where `f` holds the other numbering.
const WRITTEN: [([&str; 2], &str); 2] = [
    (["catalogue", "1"], ONE_CHAMBER),
    (["canon", "f"], LEAST),
];

/// Writes of one byte, of which the second fails.
fn write_in_vain<R: Threads + Wait + Sync + Abort>(
    rt: &R,
    alloc: Global,
    words: &[&str],
    store: &mut SureStore,
) {
    let mut out = sink_failing_at(rt, alloc, 2, 1);
    let end = (Status::SinkFault, "dressline: sink failed\n");
    run_to_end(rt, alloc, words, store, &mut out, end);
    assert_eq!(rt; out.held(), b"<".as_slice());
}

/// A sink that does not fail takes all.
fn write_all<R: Threads + Wait + Sync + Abort>(
    rt: &R,
    alloc: Global,
    words: &[&str],
    store: &mut SureStore,
    text: &str,
) {
    let mut out = MemorySink::new(alloc, Vec::new(alloc), 7);
    run_to_end(rt, alloc, words, store, &mut out, (Status::Done, ""));
    assert_eq!(rt; out.held(), text.as_bytes());
}

#[test]
fn a_sink_that_fails(rt: HostRuntime) {
    for (words, text) in &WRITTEN {
        let mut store = store_with(&rt, rt.alloc(), OTHER);
        write_in_vain(&rt, rt.alloc(), words, &mut store);
        write_all(&rt, rt.alloc(), words, &mut store, text);
    }
}

/// A store whose first call puts a file under `f`, and whose second call fails.
fn failing_store<R: Abort>(rt: &R, alloc: Global) -> MemoryStore {
    let calls = Vec::from_slice(alloc, &[2]).expect(rt, "a number");
    let mut store = MemoryStore::new(alloc, calls, false);
    store
        .put("f", LEAST.as_bytes())
        .expect(rt, "the first call");
    store
}

/// Wants a file that the store does not give.
fn fetch_in_vain<R: Threads + Wait + Sync + Abort>(
    rt: &R,
    alloc: Global,
    name: &str,
    store: &mut MemoryStore,
) {
    let mut out = SureSink::new(alloc);
    let end = (Status::StoreFault, "dressline: store failed\n");
    run_to_end(rt, alloc, &["canon", name], store, &mut out, end);
    assert_eq!(rt; out.held(), b"".as_slice());
}

// A fetch that fails, and a name that holds nothing.
#[test]
fn stores_that_fail(rt: HostRuntime) {
    let mut store = failing_store(&rt, rt.alloc());
    fetch_in_vain(&rt, rt.alloc(), "f", &mut store);
    fetch_in_vain(&rt, rt.alloc(), "g", &mut store);
    assert_eq!(rt; Status::StoreFault.number(), 4);
}

/// The file that `f` then holds is refused.
fn refuse<R: Threads + Wait + Sync + Abort>(
    rt: &R,
    alloc: Global,
    store: &mut SureStore,
    out: &mut MemorySink,
) {
    let mut err = SureSink::new(alloc);
    store.put("f", b"<1.1:1:1,1,1:3").expect(rt, "a sure store");
    let status = run_words(rt, alloc, &["canon", "f"], store, out, &mut err);
    assert_eq!(rt; status, Status::Refused);
    assert_eq!(rt; out.held(), b"".as_slice());
}

// A file that is refused leaves nothing that is met by the next call over the same store and sink.
#[test]
fn a_refused_file_and_another(rt: HostRuntime) {
    let mut store = SureStore::new(rt.alloc());
    let mut out = MemorySink::new(rt.alloc(), Vec::new(rt.alloc()), 7);
    refuse(&rt, rt.alloc(), &mut store, &mut out);
    store.put("f", OTHER.as_bytes()).expect(&rt, "a sure store");
    let end = (Status::Done, "");
    run_to_end(&rt, rt.alloc(), &["canon", "f"], &mut store, &mut out, end);
    assert_eq!(rt; out.held(), LEAST.as_bytes());
}

/// Words that are not taken.
fn refuse_words<R: Threads + Wait + Sync + Abort>(rt: &R, alloc: Global, err: &mut MemorySink) {
    let (mut store, mut out) = (SureStore::new(alloc), SureSink::new(alloc));
    let status = run_words(rt, alloc, &["catalogue", "37"], &mut store, &mut out, err);
    assert_eq!(rt; status, Status::Usage);
    assert_eq!(rt; out.held(), b"".as_slice());
}

// The stream of errors fails at its first write.
#[test]
fn a_stream_of_errors_that_fails(rt: HostRuntime) {
    let mut err = sink_failing_at(&rt, rt.alloc(), 1, 7);
    refuse_words(&rt, rt.alloc(), &mut err);
    assert_eq!(rt; err.held(), b"".as_slice());
}
