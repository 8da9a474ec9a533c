//! The program: `dressline catalogue N` writes the catalogue of tilings of up to N chambers.
#![tactic(auto)]

use dd_ports::{FileStore, OpenGate, StdSink};
use dd_suite::{Status, run};
use std::alloc::{AllocError, Global};
use std::env;
use std::io::ErrorKind;
use std::process::ExitCode;
use std::rc::RcStr;
use std::rt::Env;

/// The words after the program's name. Words that are not UTF-8 are none.
fn words<R: Env + Alloc<A = Global>>(rt: &R) -> Result<Vec<RcStr>, AllocError> {
    let mut all = Vec::new(rt.alloc());
    let args = match env::args(rt) {
        Ok(args) => args,
        Err(why) if why.kind() == ErrorKind::OutOfMemory => return Err(AllocError),
        Err(_) => return Ok(all),
    };
    for word in args.skip(1) {
        all.push(RcStr::from_string(word)?)?;
    }
    Ok(all)
}

fn main(rt: HostRuntime) -> ExitCode {
    let alloc = rt.alloc();
    let Ok(words) = words(&rt) else {
        return ExitCode::from(Status::Memory.number());
    };
    let mut store = FileStore::new(&rt, alloc);
    let mut out = StdSink::new(rt.stdout());
    let mut err = StdSink::new(rt.stderr());
    let gate = OpenGate::new();
    let status = run(&rt, alloc, &words, &mut store, &mut out, &mut err, &gate);
    ExitCode::from(status.number())
}
