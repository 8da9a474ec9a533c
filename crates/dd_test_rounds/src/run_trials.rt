use crate::pair_gate::PairGate;
use dd_ports::{SureSink, SureStore};
use dd_suite::run;
use dd_suite_tasks::Status;
use std::alloc::Global;
use std::process::Abort;
use std::rc::RcStr;
use std::sync::Wait;
use std::thread::Threads;

/// The words of a catalogue by two workers, whose opening has eight jobs.
const WORDS: [&str; 6] = ["catalogue", "2", "--workers", "2", "--round", "2"];

fn words<R: Abort + Alloc<A = Global>>(rt: &R) -> Vec<RcStr> {
    let mut words = Vec::new(rt.alloc());
    for text in WORDS {
        let word = RcStr::from_str(rt.alloc(), text).expect(rt, "a word");
        words.push(word).expect(rt, "room for a word");
    }
    words
}

/// How the program ends with these words at a gate.
fn status_at<R: Threads + Wait + Sync + Alloc<A = Global>>(
    rt: &R,
    words: &[RcStr],
    gate: &PairGate,
) -> Status {
    let alloc = rt.alloc();
    let (mut store, mut out) = (SureStore::new(alloc), SureSink::new(alloc));
    run(
        rt,
        alloc,
        words,
        &mut store,
        &mut out,
        &mut SureSink::new(alloc),
        gate,
    )
}

// With the words of two workers the program has two workers at work at once.
#[test]
fn a_run_has_two_workers_at_once(rt: HostRuntime) {
    let gate = PairGate::new();
    let status = status_at(&rt, &words(&rt), &gate);
    assert_eq!(rt; status, Status::Done);
    assert_eq!(rt; gate.let_through_alone(), 0);
    assert!(rt; gate.entered() >= 8);
}
