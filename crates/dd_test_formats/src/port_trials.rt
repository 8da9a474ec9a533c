use dd_ports::{
    Fetched, FileStore, Gate, MemorySink, MemoryStore, OpenGate, Sink, SinkFault, StdSink, Store,
    StoreFault, SureSink, SureStore, write_all_of,
};
use std::alloc::Global;
use std::io;
use std::process::Abort;

fn written_by<O: Sink>(out: &mut O, text: &str) -> Result<(), SinkFault> {
    write_all_of(out, text.as_bytes())
}

#[test]
fn a_sink_in_memory(rt: HostRuntime) {
    let mut sink = SureSink::new(rt.alloc());
    assert_eq!(rt; written_by(&mut sink, "abc"), Ok(()));
    assert_eq!(rt; written_by(&mut sink, ""), Ok(()));
    assert_eq!(rt; sink.held(), b"abc".as_slice());
}

#[test]
fn a_real_sink(rt: HostRuntime) {
    let mut sink = StdSink::new(io::writer(&rt));
    assert_eq!(rt; written_by(&mut sink, "out\n"), Ok(()));
}

/// The numbers of the calls that fail, of which there is one.
fn failing<R: Abort + Alloc<A = Global>>(rt: &R, number: u64) -> Vec<u64> {
    let mut numbers = Vec::new(rt.alloc());
    numbers.push(number).expect(rt, "room for a number");
    numbers
}

// Writes of at most one byte, of which the third fails: the failed one takes nothing, and the next
// call goes on.
#[test]
fn a_sink_that_fails(rt: HostRuntime) {
    let mut small = MemorySink::new(rt.alloc(), failing(&rt, 3), 1);
    assert_eq!(rt; written_by(&mut small, "abc"), Err(SinkFault::Failed));
    assert_eq!(rt; small.held(), b"ab".as_slice());
    assert_eq!(rt; written_by(&mut small, "c"), Ok(()));
    assert_eq!(rt; small.held(), b"abc".as_slice());
}

fn put_twice<S: Store>(store: &mut S) -> Result<(), StoreFault> {
    store.put("a", b"one")?;
    store.put("a", b"two more")
}

/// Returns whether a store gives these bytes of the name `a`, of which at most `most` may be
/// fetched.
fn gives<R: Abort + Alloc<A = Global>, S: Store>(
    rt: &R,
    store: &mut S,
    most: usize,
    fetched: Fetched,
    bytes: &[u8],
) -> bool {
    let mut got = Vec::new(rt.alloc());
    store.fetch("a", &mut got, most) == Ok(fetched) && got.as_slice() == bytes
}

#[test]
fn a_store_in_memory(rt: HostRuntime) {
    let mut store = SureStore::new(rt.alloc());
    assert_eq!(rt; put_twice(&mut store), Ok(()));
    assert!(rt; gives(&rt, &mut store, 3, Fetched::Longer, b"two"));
    assert_eq!(rt; store.held("a"), Some(b"two more".as_slice()));
    assert_eq!(rt; store.held("b"), None);
}

// A file of eight bytes is whole exactly where eight may be fetched.
#[test]
fn a_store_of_files(rt: HostRuntime) {
    let mut store = FileStore::new(&rt, rt.alloc());
    assert_eq!(rt; put_twice(&mut store), Ok(()));
    assert!(rt; gives(&rt, &mut store, 3, Fetched::Longer, b"two"));
    assert!(rt; gives(&rt, &mut store, 7, Fetched::Longer, b"two mor"));
    assert!(rt; gives(&rt, &mut store, 8, Fetched::Whole, b"two more"));
}

#[test]
fn a_file_that_is_not_there(rt: HostRuntime) {
    let mut got = Vec::new(rt.alloc());
    let fetched = FileStore::new(&rt, rt.alloc()).fetch("no such file", &mut got, 3);
    assert_eq!(rt; fetched, Err(StoreFault::Failed));
}

/// Returns whether a store whose second call fails keeps this text.
fn keeps<R: Abort + Alloc<A = Global>>(rt: &R, keeps_new: bool, left: &[u8]) -> bool {
    let mut store = MemoryStore::new(rt.alloc(), failing(rt, 2), keeps_new);
    put_twice(&mut store) == Err(StoreFault::Failed)
        && store.held("a") == Some(left)
        && gives(rt, &mut store, 9, Fetched::Whole, left)
}

// A failed put leaves the old text, or the new one where the store keeps it.
#[test]
fn stores_that_fail(rt: HostRuntime) {
    assert!(rt; keeps(&rt, false, b"one"));
    assert!(rt; keeps(&rt, true, b"two more"));
}

#[test]
fn an_open_gate(_rt: HostRuntime) {
    OpenGate::new().enter(1, 1);
}
