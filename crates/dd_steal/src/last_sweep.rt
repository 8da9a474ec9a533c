ghost use Rattle.std.specs.Prelude.{◌≡◌, ◌<◌, IfOk, OnOk, MatchBool, MatchOption};
ghost use Rattle.std.specs.List.{Contains};
ghost use Rattle.dd_front.specs.declared.entry.State.TheVariants.{Out};
ghost use Rattle.dd_model.specs.Jobs.{AreMembersUnder};
ghost use Rattle.dd_board.specs.Calls.{BooksFinish};
ghost use Rattle.dd_steal.specs.Sweep.{AreDone, IsNoneOut, IsSwept, counted, if_open};

use dd_board::Desk;
use dd_front::{Entry, Finder, Naming, Taken, Ticket};
use dd_member_lists::SymbolList;
use dd_model::Memory;
use std::alloc::Global;

/// Gives back every job that is out and then does every one that is open, on this thread and as
/// worker 1. After `Err` some of it is done.
pub fn sweep<N: Naming, F: Finder>(
    alloc: Global,
    finder: &mut F,
    desk: &mut Desk<N>,
) -> Result<(), Memory>
    requires { F.request finder.old ≡ N.request }
    ensures request { F.request finder.new ≡ F.request finder.old }
    ensures done { OnOk result (AreDone desk.new.machine.entries) }
    ensures swept { IsSwept desk.old.log desk.new.log }
{
    give_back(desk)?;
    while do_next(alloc, finder, desk)? {}
    Ok(())
}

/// Returns the first entry that is out.
fn first_out(entries: &[Entry]) -> Option<&Entry>
    ensures { MatchOption result (IsNoneOut entries.now)
        (λ entry. Contains entries.now entry.now × (entry.now.state ≡ Out)) }
{
    entries.iter().find(|entry| entry.state.is_out())
}

/// Makes every entry open again that is out.
fn give_back<N: Naming>(desk: &mut Desk<N>) -> Result<(), Memory>
    ensures none { OnOk result (IsNoneOut desk.new.machine.entries) }
    ensures swept { IsSwept desk.old.log desk.new.log }
{
    while let Some(entry) = first_out(desk.entries()) {
        let number = entry.number;
        desk.back(1, number)?;
    }
    Ok(())
}

/// Books what was found, as worker 1.
fn finish_as_first<N: Naming>(
    desk: &mut Desk<N>,
    ticket: Ticket<N>,
    list: SymbolList,
) -> Result<(), Memory>
    requires { AreMembersUnder N.request ticket.job list }
    ensures books { OnOk result
        (BooksFinish 1 ticket.entry ticket.job list desk.old desk.new) }
    ensures swept { IsSwept desk.old.log desk.new.log }
{
    desk.finish(1, ticket, list).map_err(|_| Memory)
}

/// Does the first job that is open, and returns whether there was one.
fn do_next<N: Naming, F: Finder>(
    alloc: Global,
    finder: &mut F,
    desk: &mut Desk<N>,
) -> Result<bool, Memory>
    requires request { F.request finder.old ≡ N.request }
    requires none { IsNoneOut desk.old.machine.entries }
    ensures request { F.request finder.new ≡ F.request finder.old }
    ensures none { OnOk result (IsNoneOut desk.new.machine.entries) }
    ensures fewer { IfOk result (λ more. MatchBool more
        (counted if_open desk.new.machine.entries < counted if_open desk.old.machine.entries)
        (AreDone desk.new.machine.entries)) }
    ensures swept { IsSwept desk.old.log desk.new.log }
{
    let Taken::Job(ticket) = desk.take(1)? else {
        return Ok(false);
    };
    let list = finder.find(alloc, ticket.job())?;
    finish_as_first(desk, ticket, list)?;
    Ok(true)
}
