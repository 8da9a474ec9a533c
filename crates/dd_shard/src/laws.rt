ghost use Rattle.std.specs.Prelude.{◌↔◌, ◌≤◌, ℕ, List};
ghost use Rattle.dd_model.specs.Symbol.{Symbol};
ghost use Rattle.dd_model.specs.Wanted.{IsCatalogue};
ghost use Rattle.dd_model.specs.declared.jobs.Job.{Job};
ghost use Rattle.dd_model.specs.declared.requests.Request.{Request};
ghost use Rattle.dd_front_jobs.specs.Opening.{IsOpening};
ghost use Rattle.dd_front_jobs.specs.declared.shards.Shard.{Shard};
ghost use Rattle.dd_shard.specs.Merging.{AreMergeable, IsMerged};
ghost use Rattle.dd_shard.specs.ShardLists.{AreAllShards, AreListsOfShards};

/// Shows that the members of all shards, in any order of the shards, merge to the catalogue.
pub fn shards_merge_to_the_catalogue()
    ensures mergeable { (q : Request) (count : ℕ) (shards : List Shard) (lists : List (List Symbol))
        → AreAllShards count shards → AreListsOfShards q shards lists → AreMergeable lists }
    ensures merged { (q : Request) (opening : List Job) (count : ℕ) (shards : List Shard)
        (lists : List (List Symbol)) → IsOpening q opening → 1 ≤ count → count ≤ 8
        → AreAllShards count shards → AreListsOfShards q shards lists
        → (members : List Symbol) → IsMerged lists members ↔ IsCatalogue q members }
{}
