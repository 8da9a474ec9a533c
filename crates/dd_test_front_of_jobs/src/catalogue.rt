ghost use Rattle.std.specs.Prelude.{◌≤◌};
ghost use Rattle.dd_model.specs.Request.{IsValid};

use crate::plain_front::PlaceRange;
use dd_front::Members;
use dd_model::{Code, Job, Memory, Request};
use dd_plain::plain_catalogue;
use dd_symbol::{Connected, cmp_code};
use std::alloc::Global;
use std::cmp::Ordering;
use std::process::Abort;

/// The members of a catalogue in order, found by a plain filter, and their codes.
#[derive(Drop)]
pub(crate) struct Catalogue {
    pub(crate) members: Vec<Connected>,
    codes: Vec<Code>,
}

fn begins(job: &Job, symbol: &Connected, code: &Code) -> bool {
    let prefix = job.prefix.as_slice();
    let numbers = code.as_slice();
    symbol.symbol().size() == job.size
        && prefix.len() <= numbers.len()
        && prefix
            .iter()
            .zip(numbers.iter())
            .all(|(part, number)| u32::from(*part) == *number)
}

fn codes_of<R: Abort>(rt: &R, alloc: Global, members: &[Connected]) -> Vec<Code> {
    let mut codes = Vec::new(alloc);
    for member in members {
        let code = member.symbol().code(alloc).expect(rt, "a code");
        codes.push(code).expect(rt, "room for a code");
    }
    codes
}

impl Catalogue {
    pub(crate) fn of<R: Abort>(rt: &R, alloc: Global, request: &Request) -> Catalogue
        requires valid { IsValid request.now }
        requires few { request.now.chambers ≤ 3 }
    {
        let members = plain_catalogue(alloc, request).expect(rt, "a catalogue");
        let codes = codes_of(rt, alloc, &members);
        Catalogue { members, codes }
    }

    /// Where the members under a job stand.
    fn span(&self, job: &Job) -> PlaceRange {
        let mut span = (0, 0);
        for (place, (member, code)) in self.members.iter().zip(self.codes.iter()).enumerate() {
            if begins(job, member, code) {
                let first = if span.1 == 0 { place } else { span.0 };
                span = (first, place.saturating_add(1));
            }
        }
        span
    }

    pub(crate) fn spans(&self, alloc: Global, jobs: &[Job]) -> Result<Vec<PlaceRange>, Memory> {
        let mut spans = Vec::new(alloc);
        for job in jobs {
            spans.push(self.span(job))?;
        }
        Ok(spans)
    }

    /// Returns whether a list has the members at these places.
    pub(crate) fn has(&self, list: &Members, (first, end): PlaceRange) -> Result<bool, Memory> {
        let Some(members) = self.members.as_slice().get(first..end) else {
            return Ok(false);
        };
        if members.len() as u128 != list.len() {
            return Ok(false);
        }
        for (k, member) in members.iter().enumerate() {
            if cmp_code(member.symbol(), list.copy(k as u128)?.symbol()) != Ordering::Equal {
                return Ok(false);
            }
        }
        Ok(true)
    }
}
