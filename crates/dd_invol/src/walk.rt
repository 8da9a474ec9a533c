ghost use Rattle.std.specs.Bool.{OnTrue, OnFalse};
ghost use Rattle.std.specs.Prelude.{◌≡◌, ◌≢◌, [], IfOk, IfSome, IfNone, OnErr, MatchOption};
ghost use Rattle.dd_model.specs.Code.{all_images};
ghost use Rattle.dd_model.specs.Request.{IsValid};
ghost use Rattle.dd_model.specs.Jobs.{IsJobOf};
ghost use Rattle.dd_branch_tables.specs.Walk.{IsListed, IsNext, HasNoneLeft, AreListed};

use crate::next_table::kept;
use crate::table_search::TableSearch;
use arrayvec::ArrayVec;
use dd_branch_degrees::Table;
use dd_model::{Job, Memory, Request};
use std::alloc::Global;
use std::marker::Model;

/// A walk over the tables that a request and a job ask for, in the order of their codes, each once.
/// They are the connected tables with these properties:
///
/// - They have the job's size, s0 s2 = s2 s0, and their codes begin with the job's prefix.
/// - No renumbering is smaller.
/// - They have no more classes of tiles and of vertices than the request allows.
///
/// The walk is at the table to which it came last. Its search may be one table ahead, if there was
/// no memory for that table. The walk has all its room in itself, so it takes no memory on its way.
#[derive(Drop)]
pub struct Walk {
    alloc: Global,
    request: Request,
    job: Job,
    last: ArrayVec<u8, 108>,
    search: TableSearch,
}

impl Model for Walk {
    ghost use Rattle.dd_branch_tables.specs.Walk.{Walking};

    ghost Value = { Walking };

    ghost use Rattle.dd_invol.specs.TableSearch.{IsSearched};

    ghost view = { λ a. record { request = a.request; job = a.job; last = a.last.items } };

    ghost invariant = { λ a. IsSearched a.request a.job a.last.items a.search };
}

impl Walk {
    ghost use Rattle.dd_branch_tables.specs.Walk.{after, HasAdvanced, IsReached, StandsAt};

    /// The walk that has come to no table yet.
    pub fn start(alloc: Global, request: &Request, job: &Job) -> Result<Walk, Memory>
        requires valid { IsValid request.now }
        requires job { IsJobOf request.now job.now }
        ensures request { IfOk result (λ walk. walk.request ≡ request.now) }
        ensures job { IfOk result (λ walk. walk.job ≡ job.now) }
        ensures none { IfOk result (λ walk. walk.last ≡ []) }
    {
        Ok(Walk {
            alloc,
            request: *request,
            job: job.try_copy()?,
            last: ArrayVec::new(),
            search: TableSearch::start(request, job),
        })
    }

    /// The table with some images, which are known to be those of a listed one.
    fn table_of(&self, images: &[u8]) -> Result<Table, Memory>
        requires { IsReached self.now.request self.now.job images.now }
        ensures listed { IfOk result (λ table. IsListed self.now.request self.now.job table) }
        ensures images { IfOk result (λ table. all_images table ≡ images.now) }
    {
        let Some(table) = Table::of(self.alloc, self.job.size as u8, images)? else {
            unreachable!()
        };
        Ok(table)
    }

    /// Goes on to the next table; false where it came to all. It takes no memory.
    pub fn advance(&mut self) -> bool
        ensures moved { OnTrue result (HasAdvanced self.old self.new) }
        ensures stands { OnTrue result (self.new.last ≢ []) }
        ensures ended { OnFalse result
            (HasNoneLeft self.old.request self.old.job self.old.last) }
        ensures same { OnFalse result (self.new ≡ self.old) }
    {
        if !self.search.come_past(self.last.as_slice()) {
            return false;
        }
        self.last = kept(self.search.seen.as_slice());
        true
    }

    /// The table where the walk stands.
    pub fn table(&self) -> Result<Table, Memory>
        requires { self.now.last ≢ [] }
        ensures { IfOk result (λ table. StandsAt self.now table) }
    {
        self.table_of(self.last.as_slice())
    }

    /// The next table, where the walk then stands; None where it came to all. After an error it
    /// stands where it stood.
    pub fn next(&mut self) -> Result<Option<Table>, Memory>
        ensures found { IfOk result (λ found. MatchOption found
            (HasNoneLeft self.old.request self.old.job self.old.last)
            (λ table. IsNext self.old.request self.old.job self.old.last table)) }
        ensures given { IfOk result
            (λ found. IfSome found (λ table. self.new ≡ after self.old table)) }
        ensures stands { IfOk result
            (λ found. IfSome found (λ _. self.new.last ≢ [])) }
        ensures ended { IfOk result (λ found. IfNone found (self.new ≡ self.old)) }
        ensures failed { OnErr result (self.new ≡ self.old) }
    {
        if !self.search.come_past(self.last.as_slice()) {
            return Ok(None);
        }
        let images = kept(self.search.seen.as_slice());
        let table = self.table_of(images.as_slice())?;
        self.last = images;
        Ok(Some(table))
    }
}

/// All tables that a request and a job ask for, ascending, each once.
pub fn tables_under(alloc: Global, request: &Request, job: &Job) -> Result<Vec<Table>, Memory>
    requires valid { IsValid request.now }
    requires job { IsJobOf request.now job.now }
    ensures { IfOk result (λ tables. AreListed request.now job.now tables.items) }
{
    let mut walk = Walk::start(alloc, request, job)?;
    let mut tables = Vec::new(alloc);
    while let Some(table) = walk.next()? {
        tables.push(table)?;
    }
    Ok(tables)
}
