use crate::fixtures::{Faults, run_words, sink_failing_at, store_of, written};
use dd_check::read_checkpoint;
use dd_ports::{MemoryStore, SureSink};
use dd_suite_tasks::Status;
use std::alloc::Global;
use std::process::Abort;
use std::sync::Wait;
use std::thread::Threads;

/// The words of the first call.
const FIRST: [&str; 6] = ["catalogue", "3", "--round", "1", "--checkpoint", "c"];

/// How many calls a chain has at most.
const MOST_CALLS: u32 = 4;

/// Returns the number of the run of the checkpoint that the name holds, and its number of bytes;
/// zeros if there is none.
fn check_of(alloc: Global, store: &MemoryStore) -> (u32, usize) {
    let Some(text) = store.held("c") else {
        return (0, 0);
    };
    match read_checkpoint(alloc, text) {
        Ok(check) => (check.run, usize::try_from(check.bytes).unwrap_or(0)),
        Err(_) => (0, 0),
    }
}

/// Returns how much of what a call wrote counts: all of it after the last call, else as much as the
/// checkpoint of the call says.
fn kept_of(alloc: Global, store: &MemoryStore, number: u32, done: bool, written: usize) -> usize {
    let (now, bytes) = check_of(alloc, store);
    if done {
        written
    } else if now > number {
        bytes
    } else {
        0
    }
}

/// Resumes from what the store holds, and adds what counts of what is written. Returns whether the
/// chain has come to its end.
fn call<R: Threads + Wait + Sync + Abort>(
    rt: &R,
    alloc: Global,
    store: &mut MemoryStore,
    text: &mut Vec<u8>,
    write: u64,
) -> bool {
    let (number, _) = check_of(alloc, store);
    let words = if number == 0 {
        FIRST.as_slice()
    } else {
        &["resume", "c"]
    };
    let mut out = sink_failing_at(rt, alloc, write, 1000);
    let status = run_words(rt, alloc, words, store, &mut out, &mut SureSink::new(alloc));
    let done = status == Status::Done;
    let kept = kept_of(alloc, store, number, done, out.held().len());
    text.extend_from_slice(out.held().get(..kept).unwrap_or(&[]))
        .expect(rt, "room for lines");
    done
}

/// Returns what the calls of a chain write together, each of which resumes from what the one before
/// left.
fn joined<R: Threads + Wait + Sync + Abort>(
    rt: &R,
    alloc: Global,
    store: &mut MemoryStore,
    write: u64,
) -> Vec<u8> {
    let mut text = Vec::new(alloc);
    for number in 0..MOST_CALLS {
        if call(
            rt,
            alloc,
            store,
            &mut text,
            if number == 0 { write } else { 0 },
        ) {
            return text;
        }
    }
    panic!(rt; "a chain does not come to its end")
}

/// Returns whether a chain in which this fails writes this text.
fn writes<R: Threads + Wait + Sync + Abort>(
    rt: &R,
    alloc: Global,
    faults: Faults,
    text: &[u8],
) -> bool {
    let mut store = store_of(rt, alloc, faults.call, faults.keeps_new);
    joined(rt, alloc, &mut store, faults.write).as_slice() == text
}

// With every call of the store failed in turn, and every write of the first run, a chain writes
// what one run writes.
#[test]
fn chains_that_are_stopped(rt: HostRuntime) {
    let whole = written(&rt, rt.alloc(), &["catalogue", "3"]);
    for number in 1..=40u64 {
        for keeps_new in [false, true] {
            for (call, write) in [(number, 0), (0, number)] {
                let faults = Faults {
                    call,
                    keeps_new,
                    write,
                };
                assert!(rt; writes(&rt, rt.alloc(), faults, whole.held()), "{faults:?}");
            }
        }
    }
}

/// Returns how many bytes the checkpoint says if the third call of the store fails, after six lines
/// were written.
fn bytes_told<R: Threads + Wait + Sync + Abort>(rt: &R, alloc: Global, keeps_new: bool) -> usize {
    let mut store = store_of(rt, alloc, 3, keeps_new);
    put_in_vain(rt, alloc, &mut store);
    let (number, bytes) = check_of(alloc, &store);
    assert_eq!(rt; number, 1);
    bytes
}

fn put_in_vain<R: Threads + Wait + Sync + Abort>(rt: &R, alloc: Global, store: &mut MemoryStore) {
    let words = ["catalogue", "2", "--round", "1", "--checkpoint", "c"];
    let (mut out, mut err) = (SureSink::new(alloc), SureSink::new(alloc));
    let status = run_words(rt, alloc, &words, store, &mut out, &mut err);
    assert_eq!(rt; status, Status::StoreFault);
    assert_eq!(rt; out.held().len(), 126);
}

// The checkpoint tells three of the six lines, or all where the store keeps it.
#[test]
fn a_put_that_fails(rt: HostRuntime) {
    assert_eq!(rt; bytes_told(&rt, rt.alloc(), false), 54);
    assert_eq!(rt; bytes_told(&rt, rt.alloc(), true), 126);
}
