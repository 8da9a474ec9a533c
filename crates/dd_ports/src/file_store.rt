ghost use Rattle.std.specs.Prelude.{◌≡◌, [], None, false};
ghost use Rattle.dd_ports.specs.Texts.{FillsOk, FillsKnown};

use crate::fault_count::FaultCount;
use crate::store::{Fetched, Store, StoreFault};
use std::alloc::Global;
use std::fs::{FileType, OpenFile, OpenOptions};
use std::io::{ErrorKind, Read, Write};
use std::rt::Files;
use std::{fs, io};

/// Files of the system under their paths, whose faults are counted. Contracts don't see what the
/// files hold.
#[derive(Drop)]
pub struct FileStore<R: Files + Drop> {
    rt: R,
    alloc: Global,
    faults: FaultCount,
}

impl<R: Files + Drop> FileStore<R> {
    /// The store of a system's files.
    pub fn new(rt: R, alloc: Global) -> FileStore<R>
        ensures faults { ⟦<FileStore<R> as Store>⟧.faults result ≡ 0 }
    {
        FileStore {
            rt,
            alloc,
            faults: FaultCount::new(),
        }
    }
}

/// Reads to the end or to the limit, whichever comes first.
fn read_some<F: Read>(file: &mut F, into: &mut Vec<u8>, limit: usize) -> Result<Fetched, StoreFault>
    requires { into.old.items ≡ [] }
    ensures fills { FillsOk limit into.new.items result }
    ensures bytes { FillsKnown (F.remaining file.old) limit into.new.items result }
{
    let mut buf = [0u8; 16384];
    for _ in 0..u64::MAX {
        let count = file.read(&mut buf).map_err(|_| StoreFault::Failed)?;
        if count == 0 {
            return Ok(Fetched::Whole);
        }
        let room = limit - into.len();
        if count > room {
            into.extend_from_slice(&buf[..room])?;
            return Ok(Fetched::Longer);
        }
        into.extend_from_slice(&buf[..count])?;
    }
    Err(StoreFault::Failed)
}

/// Returns what a name names, or `None` if there is nothing. A link is not followed.
fn kind_of<R: Files>(rt: &R, name: &str) -> io::Result<Option<FileType>> {
    match fs::symlink_metadata(rt, name) {
        Ok(found) => Ok(Some(found.file_type())),
        Err(why) if why.kind() == ErrorKind::NotFound => Ok(None),
        Err(why) => Err(why),
    }
}

/// Makes a file and opens it for writing. A plain file or a link of this name is removed first. If
/// the name names anything else, it stays, and the call fails.
fn make_anew<R: Files>(rt: &R, name: &str) -> io::Result<R::File> {
    if kind_of(rt, name)?.is_some_and(|kind| kind.is_file() || kind.is_symlink()) {
        fs::remove_file(rt, name)?;
    }
    OpenOptions::new()
        .write(true)
        .create_new(true)
        .open(rt, name)
}

/// Writes a new file, flushes it to the disk, and gives it its name. So a stop at any moment leaves
/// under the name the old text or the new one. If the name names something that is no plain file,
/// such as a link, a folder or a device, it stays, and the call fails before it writes anything.
fn replace<R: Files>(rt: &R, fresh: &str, name: &str, bytes: &[u8]) -> io::Result<()> {
    if kind_of(rt, name)?.is_some_and(|kind| !kind.is_file()) {
        return Err(ErrorKind::AlreadyExists.into());
    }
    let mut file = make_anew(rt, fresh)?;
    file.write_all(bytes)?;
    file.sync_all()?;
    fs::rename(rt, fresh, name)
}

impl<R: Files + Drop> Store for FileStore<R> {
    ghost tells = { λ _. false };

    ghost held = { λ _ _. None };

    ghost faults = { λ s. s.faults };

    ghost sure = { λ _. false };

    fn fetch(
        &mut self,
        name: &str,
        into: &mut Vec<u8>,
        limit: usize,
    ) -> Result<Fetched, StoreFault> {
        let answer = match fs::open(&self.rt, name) {
            Ok(mut file) => read_some(&mut file, into, limit),
            Err(_) => Err(StoreFault::Failed),
        };
        if answer.is_err() {
            into.clear();
        }
        if answer == Err(StoreFault::Failed) {
            self.faults.rise();
        }
        answer
    }

    /// The text goes to the file `NAME.new` first.
    fn put(&mut self, name: &str, bytes: &[u8]) -> Result<(), StoreFault> {
        let mut fresh = String::from_str(self.alloc, name)?;
        fresh.push_str(".new")?;
        match replace(&self.rt, fresh.as_str(), name, bytes) {
            Ok(()) => Ok(()),
            Err(_) => {
                self.faults.rise();
                Err(StoreFault::Failed)
            }
        }
    }
}
