ghost use Rattle.std.specs.Prelude.{◌≡◌, ◌↔◌, ℕ, ◌≤◌, List};
ghost use Rattle.std.specs.List.{Contains};
ghost use Rattle.dd_model.specs.Text.{IsText};
ghost use Rattle.dd_model.specs.declared.jobs.Job.{Job};
ghost use Rattle.dd_model.specs.declared.jobs.Position.{Position};
ghost use Rattle.dd_model.specs.declared.requests.Request.{Request};
ghost use Rattle.dd_front_jobs.specs.declared.shards.Shard.{Shard};
ghost use Rattle.dd_front_jobs.specs.Opening.{IsOpening, IsOpeningJob};
ghost use Rattle.dd_front_jobs.specs.Shards.{IsShardJob, IsShardText};

/// Shows that each job of an opening is a job of exactly one of its shards.
pub fn each_job_is_of_one_shard()
    ensures some { (q : Request) (opening : List Job) (count : ℕ) (job : Job)
        → IsOpening q opening → 1 ≤ count → count ≤ 8 → Contains opening job
        → (shard : Shard) × (shard.count ≡ count) × IsShardJob q shard job }
    ensures one { (q : Request) (a b : Shard) (job : Job) → a.count ≡ b.count
        → IsShardJob q a job → IsShardJob q b job → a ≡ b }
{}

/// Shows that the only shard of an opening has all its jobs, and the text of the whole catalogue.
pub fn the_only_shard_is_the_whole()
    ensures jobs { (q : Request) (opening : List Job) (shard : Shard) → IsOpening q opening
        → shard.count ≡ 1 → (job : Job) → IsOpeningJob q job ↔ IsShardJob q shard job }
    ensures text { (q : Request) (opening : List Job) (shard : Shard) → IsOpening q opening
        → shard.count ≡ 1 → (at : Position) (c : ℕ) (bytes : List ℕ)
        → IsText q at c bytes ↔ IsShardText q shard at c bytes }
{}
