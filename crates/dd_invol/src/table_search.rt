ghost use Rattle.std.specs.Prelude.{◌≡◌, ◌⊎◌, ◌≤◌, ◌*◌, [], length};
ghost use Rattle.std.specs.Bool.{OnTrue, OnFalse};
ghost use Rattle.dd_model.specs.declared.jobs.Job.{Job as Beginning};
ghost use Rattle.dd_model.specs.declared.requests.Request.{Request as Asked};
ghost use Rattle.dd_branch_tables.specs.Stem.{IsStem, prefix_of, size_of};
ghost use Rattle.dd_branch_tables.specs.Walk.{HasNoneLeft};
ghost use Rattle.dd_invol.specs.NextTable.{IsAhead, here};
ghost use Rattle.dd_invol.specs.TableSearch.{IsAtLevel, IsComing};

use crate::next_table::images_here;
use crate::splits::stem_of;
use crate::tables::Tables;
use arrayvec::ArrayVec;
use dd_branch_tables::{FirstVisits, Levels, PrefixSearch, advance, begin, go_back};
use dd_model::{Job, Request};

/// A search that comes to the tables under a job one after the other, and the images of the table
/// to which it came last, none before the first one. It stands at the last of its levels.
#[derive(Drop)]
pub(crate) struct TableSearch {
    pub(crate) tables: Tables,
    pub(crate) levels: Levels,
    pub(crate) seen: ArrayVec<u8, 108>,
}

impl TableSearch {
    /// The search under a stem.
    fn from_tables(mut tables: Tables) -> TableSearch
        requires { IsStem tables.stem }
        ensures coming { IsComing tables.request (here tables.stem) result }
        ensures first { (result.seen.items ≡ [])
            ⊎ IsAhead tables.request (here tables.stem) [] result.seen.items }
    {
        if !tables.is_whole() {
            let levels = begin(&tables);
            let seen = ArrayVec::new();
            return TableSearch {
                tables,
                levels,
                seen,
            };
        }
        let levels = Levels::none();
        let Some(seen) = images_here(&mut tables) else {
            let seen = ArrayVec::new();
            return TableSearch {
                tables,
                levels,
                seen,
            };
        };
        TableSearch {
            tables,
            levels,
            seen,
        }
    }

    /// The search under a job, which may have come to its first table.
    pub(crate) fn start(request: &Request, job: &Job) -> TableSearch
        requires size { (1 ≤ job.now.size) × (job.now.size ≤ 36) }
        requires short { length job.now.prefix ≤ 3 * job.now.size }
        ensures coming { IsComing request.now job.now result }
        ensures first { (result.seen.items ≡ [])
            ⊎ IsAhead request.now job.now [] result.seen.items }
    {
        let mut visit = FirstVisits::new();
        if let Some(stem) = stem_of(job, &mut visit) {
            return TableSearch::from_tables(Tables::from_stem(request, stem, visit));
        }
        TableSearch {
            tables: Tables::new(request, job.size as u8),
            levels: Levels::none(),
            seen: ArrayVec::new(),
        }
    }

    /// Comes to the next table; false where there is none.
    fn seek(&mut self) -> bool
        requires stem { IsStem self.old.tables.stem }
        requires at { IsAtLevel self.old.tables self.old.levels }
        ensures coming { (q : Asked) (job : Beginning)
            → IsComing q job self.old → IsComing q job self.new }
        ensures found { OnTrue result ((q : Asked) (job : Beginning) → IsComing q job self.old
            → IsAhead q job self.old.seen.items self.new.seen.items) }
        ensures none { OnFalse result ((q : Asked) (job : Beginning) → IsComing q job self.old
            → HasNoneLeft q job self.old.seen.items) }
        ensures same { OnFalse result (self.new.seen ≡ self.old.seen) }
    {
        while advance(&mut self.tables, &mut self.levels) {
            let found = images_here(&mut self.tables);
            go_back(&mut self.tables, &mut self.levels);
            if let Some(images) = found {
                self.seen = images;
                return true;
            }
        }
        false
    }

    /// Comes to the table after that of some images, the last one or the one before it; false where
    /// there is none.
    pub(crate) fn come_past(&mut self, last: &[u8]) -> bool
        requires stem { IsStem self.old.tables.stem }
        requires at { IsAtLevel self.old.tables self.old.levels }
        ensures coming { (q : Asked) (job : Beginning)
            → IsComing q job self.old → IsComing q job self.new }
        ensures found { OnTrue result ((q : Asked) (job : Beginning) → IsComing q job self.old
            → ((self.old.seen.items ≡ last.now) ⊎ IsAhead q job last.now self.old.seen.items)
            → IsAhead q job last.now self.new.seen.items) }
        ensures none { OnFalse result ((q : Asked) (job : Beginning) → IsComing q job self.old
            → HasNoneLeft q job last.now) }
        ensures same { OnFalse result (self.new.seen ≡ self.old.seen) }
    {
        if self.seen.as_slice() != last {
            return true;
        }
        self.seek()
    }
}
