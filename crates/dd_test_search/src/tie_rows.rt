ghost use Rattle.std.specs.Prelude.{◌≤◌};
ghost use Rattle.dd_model.specs.Request.{IsValid};
ghost use Rattle.dd_model.specs.Jobs.{IsJobOf};

use crate::fixtures::{asked, opened, tables};
use dd_branch_degrees::{Table, Ties, members_of};
use dd_canon::tied_starts;
use dd_member_lists::SymbolList;
use dd_model::{Job, Request};
use dd_symbol::Connected;
use std::alloc::Global;
use std::process::Abort;

/// What is known of the other chambers from which a table may be numbered as it stands.
fn ties_of<R: Abort + Alloc<A = Global>>(rt: &R, table: &Table) -> Ties {
    let starts = tied_starts(rt.alloc(), table.symbol()).expect(rt, "an answer");
    let starts = starts.expect(rt, "a least table");
    Ties::of(rt.alloc(), table.symbol().symbol(), starts).expect(rt, "the ties")
}

/// How many ties a table has, and to how many of them an automorphism is found.
fn counts_of_ties<R: Abort + Alloc<A = Global>>(rt: &R, table: &Table) -> (u64, u64) {
    let ties = ties_of(rt, table);
    let found = match &ties.automorphisms {
        Some(all) => all.len() as u64,
        None => 0,
    };
    (ties.starts.len() as u64, found)
}

/// Returns the same for all tables under a job.
fn ties_under<R: Abort + Alloc<A = Global>>(rt: &R, request: &Request, job: &Job) -> (u64, u64) {
    let tables = tables(rt, rt.alloc(), request, job);
    let mut ties = 0u64;
    let mut found = 0u64;
    for table in &tables {
        let (more, others) = counts_of_ties(rt, table);
        ties = ties.saturating_add(more);
        found = found.saturating_add(others);
    }
    (ties, found)
}

/// No contract says that automorphisms are found: where there are none, numberings are compared.
#[test]
fn each_tie_has_an_automorphism(rt: HostRuntime) {
    let request = asked(8, 0, 1);
    let mut ties = 0u64;
    let mut found = 0u64;
    for job in &opened(&rt, rt.alloc(), &request) {
        let (more, others) = ties_under(&rt, &request, job);
        ties = ties.saturating_add(more);
        found = found.saturating_add(others);
    }
    assert_eq!(rt; (ties, found), (313, 313));
}

/// From how many chambers a least symbol may be numbered as it stands.
fn count_starts<R: Abort + Alloc<A = Global>>(rt: &R, symbol: &Connected) -> u64 {
    let ties = tied_starts(rt.alloc(), symbol).expect(rt, "an answer");
    let ties = ties.expect(rt, "a least symbol");
    (ties.len() as u64).saturating_add(1)
}

/// Returns the same for the member at a place of a list.
fn count_starts_at<R: Abort + Alloc<A = Global>>(rt: &R, list: &SymbolList, place: usize) -> u64 {
    assert!(rt; place < list.len());
    let member = list.all().copy(rt.alloc(), place).expect(rt, "a copy");
    count_starts(rt, &member)
}

/// How many symbols the ties of a table make of its members.
fn count_made<R: Abort + Alloc<A = Global>>(rt: &R, starts: u64, list: &SymbolList) -> u64 {
    let mut made = 0u64;
    for place in 0..list.len() {
        let alike = count_starts_at(rt, list, place);
        made = made.saturating_add(starts.checked_div(alike).expect(rt, "chamber 1"));
    }
    made
}

/// How many members a table has, and how many symbols its ties make of them.
fn counts_of_members<R: Abort + Alloc<A = Global>>(
    rt: &R,
    request: &Request,
    table: Table,
) -> (u64, u64) {
    let starts = count_starts(rt, table.symbol());
    let list = members_of(rt.alloc(), table, request).expect(rt, "members");
    (list.len() as u64, count_made(rt, starts, &list))
}

/// Returns the same for all tables under a job.
fn members_under<R: Abort + Alloc<A = Global>>(rt: &R, request: &Request, job: &Job) -> (u64, u64) {
    let mut members = 0u64;
    let mut made = 0u64;
    for table in tables(rt, rt.alloc(), request, job) {
        let (more, others) = counts_of_members(rt, request, table);
        members = members.saturating_add(more);
        made = made.saturating_add(others);
    }
    (members, made)
}

/// The flat symbols on least tables are those that the ties of their tables make of the members.
#[test]
fn ties_make_the_flat_symbols_of_the_members(rt: HostRuntime) {
    let request = asked(10, 0, 1);
    let mut members = 0u64;
    let mut made = 0u64;
    for job in &opened(&rt, rt.alloc(), &request) {
        let (more, others) = members_under(&rt, &request, job);
        members = members.saturating_add(more);
        made = made.saturating_add(others);
    }
    assert_eq!(rt; (members, made), (53341, 58145));
}
