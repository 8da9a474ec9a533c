ghost use Rattle.std.specs.Prelude.{◌≡◌, ◌∷◌, [], IfOk};
ghost use Rattle.dd_model.specs.Request.{IsValid};
ghost use Rattle.dd_model.specs.Jobs.{AreAscendingJobs, AreApart};

use crate::catalogue::Catalogue;
use crate::front_events::{Deed, deed_of};
use crate::plain_front::{Action, PlainFront, Stage};
use crate::random_actions::RandomNumbers;
use dd_front::{Front, State};
use dd_front_jobs::opening;
use dd_model::{Job, Memory, Position, Prefix, Request};
use std::alloc::Global;
use std::process::Abort;
use std::test::Fail;

/// How many lists of events are tried.
const LISTS: u64 = 3000;

/// How many events a list has.
const EVENTS: u32 = 24;

fn stage_of(state: &State) -> Stage {
    match state {
        State::Open => Stage::Open,
        State::Out => Stage::Out,
        State::Done(_) => Stage::Done,
    }
}

/// Returns whether a front shows what a plain list shows.
fn agrees(front: &Front, plain: &PlainFront) -> bool {
    let entries = front.entries();
    front.lines() == plain.lines
        && front.next_number() == plain.next_number
        && entries.len() == plain.rows.len()
        && entries.iter().zip(plain.rows.iter()).all(|(entry, row)| entry.number == row.number
            && stage_of(&entry.state) == row.stage)
}

/// What an event did at a front and at a plain list.
#[derive(Clone, Copy, Debug, PartialEq, Eq)]
enum Outcome {
    Refused,
    Done,
    Differs,
}

/// Returns whether a plain list shows an event that a front did as the front does.
fn is_same(
    plain: &mut PlainFront,
    catalogue: &Catalogue,
    action: Action,
    deed: &Deed,
) -> Result<bool, Memory> {
    let span = plain.act(action, deed.parts.as_slice())?;
    match &deed.emitted {
        Some(list) => catalogue.has(list, span),
        None => Ok(span == (0, 0)),
    }
}

/// Does an event at both, where they allow it.
fn outcome_of(
    alloc: Global,
    front: &mut Front,
    plain: &mut PlainFront,
    catalogue: &Catalogue,
    action: Action,
) -> Result<Outcome, Fail> {
    let allowed = plain.allows(action);
    let Some(deed) = deed_of(alloc, front, catalogue, action)? else {
        return Ok(if allowed {
            Outcome::Differs
        } else {
            Outcome::Refused
        });
    };
    if !allowed {
        return Ok(Outcome::Differs);
    }
    let same = is_same(plain, catalogue, action, &deed)?;
    Ok(if same && agrees(front, plain) {
        Outcome::Done
    } else {
        Outcome::Differs
    })
}

/// The place of a kind of event.
fn kind(action: Action) -> usize {
    match action {
        Action::Take(_) => 0,
        Action::Look => 1,
        Action::Split(_) => 2,
        Action::Finish(_) => 3,
        Action::Back(_) => 4,
        Action::Emit => 5,
        Action::Part(_) => 6,
        Action::Save => 7,
        Action::Resume => 8,
    }
}

/// Returns whether the entry of a number has a whole prefix, so that it has no parts.
fn is_whole(front: &Front, number: u64) -> bool {
    front.entries().iter().any(|entry| entry.number == number
        && entry.job.prefix.as_slice().len() as u64 >= 3 * entry.job.size as u64)
}

/// The next event. A job that has no parts is finished and not split.
fn next_action(numbers: &mut RandomNumbers, front: &Front, plain: &PlainFront) -> Action {
    match numbers.action(plain) {
        Action::Split(entry) => if is_whole(front, entry) {
            Action::Finish(entry)
        } else {
            Action::Split(entry)
        },
        other => other,
    }
}

/// Returns a front with these jobs that begins before all members.
fn front_of(alloc: Global, request: Request, jobs: Vec<Job>) -> Result<Front, Memory>
    requires valid { IsValid request }
    requires ascending { AreAscendingJobs jobs.items }
    requires apart { AreApart jobs.items }
{
    let start = Position::At(Job {
        size: 1,
        prefix: Prefix::from_slice(alloc, &[])?,
    });
    Front::open(alloc, request, jobs, start, 5)
}

fn job_of<R: Abort>(rt: &R, alloc: Global, size: u32, number: u8) -> Job
    ensures { result ≡ record { size = size; prefix = number ∷ [] } }
{
    let prefix = Prefix::from_slice(alloc, &[number]).expect(rt, "a prefix");
    Job { size, prefix }
}

/// Jobs of the request for two chambers under which all its members are, and which have parts.
fn short_jobs<R: Abort>(rt: &R, alloc: Global) -> Vec<Job>
    ensures ascending { AreAscendingJobs result.items }
    ensures apart { AreApart result.items }
{
    let mut jobs = Vec::new(alloc);
    jobs.push(job_of(rt, alloc, 1, 1)).expect(rt, "room");
    jobs.push(job_of(rt, alloc, 2, 1)).expect(rt, "room");
    jobs.push(job_of(rt, alloc, 2, 2)).expect(rt, "room");
    jobs
}

/// The jobs with which the catalogue of a request begins.
fn opening_jobs(alloc: Global, request: &Request) -> Result<Vec<Job>, Memory>
    requires valid { IsValid request.now }
    ensures ascending { IfOk result (λ jobs. AreAscendingJobs jobs.items) }
    ensures apart { IfOk result (λ jobs. AreApart jobs.items) }
{
    opening(alloc, request)
}

/// A front and a plain list of the same jobs: those of the opening, or shorter ones.
fn both_of<R: Abort>(
    rt: &R,
    alloc: Global,
    catalogue: &Catalogue,
    short: bool,
) -> (Front, PlainFront) {
    let request = Request::up_to(2);
    let jobs = if short {
        short_jobs(rt, alloc)
    } else {
        opening_jobs(alloc, &request).expect(rt, "the jobs")
    };
    let spans = catalogue.spans(alloc, jobs.as_slice()).expect(rt, "spans");
    let front = front_of(alloc, request, jobs).expect(rt, "a front");
    let plain = PlainFront::open(alloc, spans, 5).expect(rt, "a plain list");
    (front, plain)
}

/// Does the next event.
fn do_next(
    alloc: Global,
    catalogue: &Catalogue,
    numbers: &mut RandomNumbers,
    front: &mut Front,
    plain: &mut PlainFront,
) -> Result<(Action, Outcome), Fail> {
    let action = next_action(numbers, front, plain);
    let outcome = outcome_of(alloc, front, plain, catalogue, action)?;
    Ok((action, outcome))
}

/// How often each kind of event was done over a list of events.
fn run_list<R: Abort>(
    rt: &R,
    alloc: Global,
    catalogue: &Catalogue,
    seed: u64,
    counts: &mut [u32],
) -> Result<(), Fail> {
    let (mut front, mut plain) = both_of(rt, alloc, catalogue, seed % 2 == 0);
    let mut numbers = RandomNumbers::from_seed(seed);
    for _ in 0..EVENTS {
        let done = do_next(alloc, catalogue, &mut numbers, &mut front, &mut plain);
        let (action, outcome) = done?;
        assert!(rt; outcome != Outcome::Differs, "{seed}: {action:?}");
        if outcome == Outcome::Done {
            if let Some(count) = counts.get_mut(kind(action)) {
                *count = count.saturating_add(1);
            }
        }
    }
    Ok(())
}

// Lists of events at a front and at a plain list, with jobs and members of the search.
#[test]
fn fronts_are_plain_lists(rt: HostRuntime) -> Result<(), Fail> {
    let catalogue = Catalogue::of(&rt, rt.alloc(), &Request::up_to(2));
    assert_eq!(rt; catalogue.members.len(), 18);
    let mut counts = [0u32; 9];
    for seed in 0..LISTS {
        run_list(&rt, rt.alloc(), &catalogue, seed, &mut counts)?;
    }
    for count in counts {
        assert!(rt; count > 50, "{counts:?}");
    }
    Ok(())
}
