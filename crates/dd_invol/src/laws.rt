ghost use Rattle.std.specs.Prelude.{◌≡◌, ◌*◌, ◌≤◌, length};
ghost use Rattle.dd_model.specs.Symbol.{Symbol, IsSymbol};
ghost use Rattle.dd_model.specs.Connected.{Connected};
ghost use Rattle.dd_model.specs.Lists.{Begins};
ghost use Rattle.dd_model.specs.Code.{code, Least};
ghost use Rattle.dd_model.specs.declared.jobs.Job.{Job};
ghost use Rattle.dd_model.specs.declared.requests.Request.{Request};
ghost use Rattle.dd_model.specs.Jobs.{IsMemberUnder};
ghost use Rattle.dd_front_jobs.specs.Opening.{IsOpeningJob, IsCoveredBy};
ghost use Rattle.dd_model.specs.Involutions.{HaveSameInvolutions};
ghost use Rattle.dd_branch_tables.specs.Walk.{IsListed, HasTable};

/// The code of each connected least symbol begins with exactly one prefix of the opening.
pub fn each_least_code_begins_with_one_job()
    ensures exists { (q : Request) (s : Symbol) → IsSymbol s → Connected s → Least s
        → s.size ≤ q.chambers → IsCoveredBy q s }
    ensures unique { (q : Request) (s : Symbol) (j k : Job) → IsOpeningJob q j → IsOpeningJob q k
        → s.size ≡ j.size → s.size ≡ k.size → Begins j.prefix (code s) → Begins k.prefix (code s)
        → j ≡ k }
{}

/// The involutions of each member of a catalogue under a job are those of exactly one table of the
/// walk over the job.
pub fn each_member_has_one_table()
    ensures exists { (q : Request) (job : Job) (s : Symbol) → length job.prefix ≤ 3 * job.size
        → IsMemberUnder q job s → HasTable q job s }
    ensures unique { (q : Request) (job : Job) (s t u : Symbol) → IsListed q job t
        → IsListed q job u → HaveSameInvolutions s t → HaveSameInvolutions s u → t ≡ u }
{}
