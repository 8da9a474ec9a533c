ghost use Rattle.std.specs.Prelude.{IfOk, IfSome};
ghost use Rattle.std.specs.Bool.{OnTrue};
ghost use Rattle.std.specs.List.{Contains};
ghost use Rattle.dd_model.specs.Jobs.{IsJobOf};
ghost use Rattle.dd_front.specs.declared.entry.State.TheVariants.{Out};
ghost use Rattle.dd_front.specs.Machine.{entry_of};
ghost use Rattle.dd_front.specs.Room.{HasRoomToEmit};

use crate::catalogue::Catalogue;
use crate::plain_front::{Action, PlaceRange};
use dd_branch::Search;
use dd_front::{Event, Finder, Front, JobList, Members, State};
use dd_model::{Job, Memory, Request};
use std::alloc::Global;
use std::test::Fail;

/// More lines, entries or members than a trial has.
const MANY: u64 = 1000;

/// The job of the entry of a number, where it is out.
fn job_out(front: &Front, number: u64) -> Result<Option<Job>, Memory>
    ensures { IfOk result (λ found. IfSome found (λ job.
        Contains front.now.entries (entry_of number job Out))) }
{
    for entry in front.entries() {
        if entry.number == number && entry.state.is_out() {
            return Ok(Some(entry.job.try_copy()?));
        }
    }
    Ok(None)
}

// Each of these functions does an event if it is allowed, and returns whether it was.

pub(crate) fn take(front: &mut Front, entry: u64) -> Result<bool, Memory> {
    let event = Event::Take { worker: 1, entry };
    if !front.allowed(&event) {
        return Ok(false);
    }
    front.step(event)?;
    Ok(true)
}

fn look(front: &mut Front) -> Result<bool, Memory> {
    let event = Event::Look { worker: 1 };
    if !front.allowed(&event) {
        return Ok(false);
    }
    front.step(event)?;
    Ok(true)
}

pub(crate) fn give_back(front: &mut Front, entry: u64) -> Result<bool, Memory> {
    let event = Event::Back { worker: 1, entry };
    if !front.allowed(&event) {
        return Ok(false);
    }
    front.step(event)?;
    Ok(true)
}

fn save(front: &mut Front) -> Result<bool, Memory> {
    if !front.allowed(&Event::Save) {
        return Ok(false);
    }
    front.step(Event::Save)?;
    Ok(true)
}

fn resume(front: &mut Front) -> Result<bool, Memory> {
    if !front.allowed(&Event::Resume) {
        return Ok(false);
    }
    front.step(Event::Resume)?;
    Ok(true)
}

pub(crate) fn is_job_of(request: &Request, job: &Job) -> bool
    ensures { OnTrue result (IsJobOf request.now job.now) }
{
    job.size >= 1
        && job.size <= request.chambers
        && job.prefix.as_slice().len() as u64 <= 3 * job.size as u64
}

fn finish_none(alloc: Global, front: &mut Front) -> Result<(), Memory> {
    let list = Members::none(alloc);
    front.step(Event::Finish {
        worker: 1,
        entry: 0,
        list,
    })
}

fn finish_job(alloc: Global, front: &mut Front, entry: u64, job: &Job) -> Result<(), Fail>
    requires { Contains front.old.entries (entry_of entry job.now Out) }
{
    let request = front.request();
    if !is_job_of(&request, job) {
        return Err(Fail::new("a job of another request"));
    }
    let list = Search::new(&request).find(alloc, job)?;
    let list = Members::new(alloc, list)?;
    Ok(front.step(Event::Finish {
        worker: 1,
        entry,
        list,
    })?)
}

/// Returns whether no list of members may be given for an entry.
fn may_finish(alloc: Global, front: &Front, entry: u64) -> bool {
    let event = Event::Finish {
        worker: 1,
        entry,
        list: Members::none(alloc),
    };
    front.allowed(&event)
}

fn finish(alloc: Global, front: &mut Front, entry: u64) -> Result<bool, Fail> {
    if !may_finish(alloc, front, entry) {
        return Ok(false);
    }
    match job_out(front, entry)? {
        Some(job) => finish_job(alloc, front, entry, &job)?,
        None => finish_none(alloc, front)?,
    }
    Ok(true)
}

fn split_none(alloc: Global, front: &mut Front) -> Result<(), Fail> {
    if front.next_number() > MANY {
        return Err(Fail::new("too many entries"));
    }
    let jobs = JobList::from_vec(Vec::new(alloc));
    Ok(front.step(Event::Split {
        worker: 1,
        entry: 0,
        jobs,
    })?)
}

/// Answers the parts.
fn split_job(
    alloc: Global,
    front: &mut Front,
    catalogue: &Catalogue,
    entry: u64,
    job: &Job,
) -> Result<Vec<PlaceRange>, Fail>
    requires { Contains front.old.entries (entry_of entry job.now Out) }
{
    let request = front.request();
    if !is_job_of(&request, job) {
        return Err(Fail::new("a job of another request"));
    }
    if job.prefix.as_slice().len() as u64 >= 3 * job.size as u64 {
        return Err(Fail::new("a job of one table"));
    }
    let jobs = Search::new(&request).split(alloc, job)?;
    let spans = catalogue.spans(alloc, jobs.as_slice())?;
    if jobs.len() as u64 > MANY || front.next_number() > MANY {
        return Err(Fail::new("too many entries"));
    }
    let jobs = JobList::from_vec(jobs);
    front.step(Event::Split {
        worker: 1,
        entry,
        jobs,
    })?;
    Ok(spans)
}

/// Returns whether an entry may be split into no jobs.
fn may_split(alloc: Global, front: &Front, entry: u64) -> bool {
    let event = Event::Split {
        worker: 1,
        entry,
        jobs: JobList::from_vec(Vec::new(alloc)),
    };
    front.allowed(&event)
}

/// Answers the parts where the event is allowed.
fn split(
    alloc: Global,
    front: &mut Front,
    catalogue: &Catalogue,
    entry: u64,
) -> Result<Option<Vec<PlaceRange>>, Fail> {
    if !may_split(alloc, front, entry) {
        return Ok(None);
    }
    match job_out(front, entry)? {
        Some(job) => Ok(Some(split_job(alloc, front, catalogue, entry, &job)?)),
        None => {
            split_none(alloc, front)?;
            Ok(Some(Vec::new(alloc)))
        }
    }
}

fn has_room(front: &Front) -> bool
    ensures { OnTrue result (HasRoomToEmit front.now) }
{
    let Some(entry) = front.entries().first() else {
        return true;
    };
    match &entry.state {
        State::Done(list) => front.lines() <= MANY as u128 && list.len() <= MANY as u128,
        State::Open | State::Out => true,
    }
}

/// Answers what is emitted where the event is allowed.
fn emit(front: &mut Front) -> Result<Option<Members>, Fail> {
    if !has_room(front) {
        return Err(Fail::new("too many lines"));
    }
    if !front.allowed(&Event::Emit) {
        return Ok(None);
    }
    Ok(front.emit())
}

/// Answers what is emitted where the event is allowed.
fn part(front: &mut Front, count: u64) -> Result<Option<Members>, Fail> {
    if front.lines() > MANY as u128 {
        return Err(Fail::new("too many lines"));
    }
    if !front.allowed(&Event::Part { count }) {
        return Ok(None);
    }
    Ok(Some(front.part(count)?))
}

/// What a front did: the parts of a split, and what was emitted.
#[derive(Drop)]
pub(crate) struct Deed {
    pub(crate) parts: Vec<PlaceRange>,
    pub(crate) emitted: Option<Members>,
}

/// Does an event that emits nothing and is no split, where it is allowed, and answers whether it
/// was.
fn is_done(alloc: Global, front: &mut Front, action: Action) -> Result<bool, Fail> {
    match action {
        Action::Take(entry) => Ok(take(front, entry)?),
        Action::Look => Ok(look(front)?),
        Action::Finish(entry) => finish(alloc, front, entry),
        Action::Back(entry) => Ok(give_back(front, entry)?),
        Action::Save => Ok(save(front)?),
        Action::Resume => Ok(resume(front)?),
        Action::Split(_) | Action::Emit | Action::Part(_) => Ok(false),
    }
}

fn emitted(alloc: Global, list: Option<Members>) -> Option<Deed> {
    match list {
        Some(list) => Some(Deed {
            parts: Vec::new(alloc),
            emitted: Some(list),
        }),
        None => None,
    }
}

/// Does an event where it is allowed.
pub(crate) fn deed_of(
    alloc: Global,
    front: &mut Front,
    catalogue: &Catalogue,
    action: Action,
) -> Result<Option<Deed>, Fail> {
    match action {
        Action::Split(entry) => match split(alloc, front, catalogue, entry)? {
            Some(parts) => Ok(Some(Deed {
                parts,
                emitted: None,
            })),
            None => Ok(None),
        },
        Action::Emit => Ok(emitted(alloc, emit(front)?)),
        Action::Part(count) => Ok(emitted(alloc, part(front, count)?)),
        other => if is_done(alloc, front, other)? {
            Ok(Some(Deed {
                parts: Vec::new(alloc),
                emitted: None,
            }))
        } else {
            Ok(None)
        },
    }
}
