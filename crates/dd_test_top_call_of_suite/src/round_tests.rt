use crate::fixtures::words_of;
use dd_ports::{Gate, SureSink, SureStore};
use dd_suite::run;
use dd_suite_tasks::Status;
use std::alloc::Global;
use std::process::Abort;
use std::rc::RcStr;
use std::sync::Wait;
use std::sync::atomic::{AtomicU64, Ordering};
use std::thread::Threads;

/// A gate that counts the rounds of a run: in each of them one job enters as its first entry.
#[derive(Drop)]
struct RoundGate {
    rounds: AtomicU64,
}

impl Gate for RoundGate {
    fn enter(&self, _worker: u32, entry: u64) {
        if entry == 1 {
            self.rounds.fetch_add(1, Ordering::SeqCst);
        }
    }
}

/// Runs the program with these words, which it is to do, at a gate.
fn run_at<R: Threads + Wait + Sync + Abort>(
    rt: &R,
    alloc: Global,
    words: &[RcStr],
    gate: &RoundGate,
) {
    let (mut store, mut out) = (SureStore::new(alloc), SureSink::new(alloc));
    let mut err = SureSink::new(alloc);
    let status = run(rt, alloc, words, &mut store, &mut out, &mut err, gate);
    assert_eq!(rt; status, Status::Done);
}

fn rounds_of_words<R: Threads + Wait + Sync + Abort>(
    rt: &R,
    alloc: Global,
    words: &[RcStr],
) -> u64 {
    let gate = RoundGate {
        rounds: AtomicU64::new(0),
    };
    run_at(rt, alloc, words, &gate);
    gate.rounds.load(Ordering::SeqCst)
}

/// In how many rounds the program does what these words ask for.
fn rounds_of<R: Threads + Wait + Sync + Abort>(rt: &R, alloc: Global, texts: &[&str]) -> u64 {
    let words = words_of(rt, alloc, texts);
    rounds_of_words(rt, alloc, &words)
}

// Two workers that keep no checkpoint pass over the jobs under which nothing is, which are most of
// them. Workers that keep one count each job. One worker begins with a job for each size, and does
// at most four of them in a round.
#[test]
fn rounds_of_several_workers_are_long(rt: HostRuntime) {
    let alone = ["catalogue", "5", "--round", "16"];
    let alone = rounds_of(&rt, rt.alloc(), &alone);
    let two = ["catalogue", "5", "--round", "16", "--workers", "2"];
    let free = rounds_of(&rt, rt.alloc(), &two);
    let kept = [
        "catalogue",
        "5",
        "--round",
        "16",
        "--workers",
        "2",
        "--checkpoint",
        "c",
    ];
    let kept = rounds_of(&rt, rt.alloc(), &kept);
    assert!(rt; 1 < free && free < kept / 2, "{free} of {kept}");
    assert_eq!(rt; alone, 2);
}
