use crate::fixtures::sink_failing_at;
use dd_check::{CheckFault, ShardFault};
use dd_ports::{SinkFault, SureSink};
use dd_suite_tasks::{Ending, tell};

/// An ending, and its line on the error stream.
const LINES: [(Ending, &str); 9] = [
    (Ending::Done, ""),
    (Ending::Usage, "dressline: words not taken\n"),
    (
        Ending::RefusedCheck(ShardFault::Check(CheckFault::Shape { line: 6 })),
        "dressline: checkpoint: shape line 6\n",
    ),
    (
        Ending::RefusedCheck(ShardFault::Other),
        "dressline: checkpoint: other shard\n",
    ),
    (Ending::Paused(17), "dressline: paused at 17 lines\n"),
    (Ending::StoreFault, "dressline: store failed\n"),
    (Ending::SinkFault, "dressline: sink failed\n"),
    (Ending::Memory, "dressline: out of memory\n"),
    (Ending::TooManyLines, "dressline: too many lines\n"),
];

#[test]
fn lines_of_endings(rt: HostRuntime) {
    for (ending, line) in &LINES {
        let mut err = SureSink::new(rt.alloc());
        assert_eq!(rt; tell(rt.alloc(), *ending, &mut err), Ok(()));
        assert_eq!(rt; err.held(), line.as_bytes());
    }
}

// A line that is cut off is told as cut off.
#[test]
fn a_line_that_is_cut_off(rt: HostRuntime) {
    let mut err = sink_failing_at(&rt, rt.alloc(), 2, 10);
    let told = tell(rt.alloc(), Ending::Memory, &mut err);
    assert_eq!(rt; told, Err(SinkFault::Failed));
    assert_eq!(rt; err.held(), b"dressline:".as_slice());
}
