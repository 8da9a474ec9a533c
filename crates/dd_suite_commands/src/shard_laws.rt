ghost use Rattle.std.specs.Prelude.{◌↔◌, ◌≤◌, ℕ, List};
ghost use Rattle.dd_model.specs.Request.{IsValid};
ghost use Rattle.dd_model.specs.Symbol.{Symbol};
ghost use Rattle.dd_model.specs.Text.{IsText, beginning};
ghost use Rattle.dd_model.specs.declared.jobs.Job.{Job};
ghost use Rattle.dd_model.specs.declared.requests.Request.{Request};
ghost use Rattle.dd_front_jobs.specs.Opening.{IsOpening};
ghost use Rattle.dd_front_jobs.specs.declared.shards.Shard.{Shard};
ghost use Rattle.dd_shard.specs.ShardLists.{AreAllShards};
ghost use Rattle.dd_suite_commands.specs.Merges.{AreRead, IsMergedText, IsMergeRefusal};
ghost use Rattle.dd_suite_commands.specs.ShardFiles.{AreTextsOfShards};
ghost use Rattle.dd_suite_commands.specs.declared.merge_refusal.MergeRefusal.{MergeRefusal};

/// Shows that the texts of all shards, in any order, merge to the text of the catalogue, if they
/// are files: no merge of them is refused.
pub fn texts_of_shards_merge_to_the_catalogue()
    ensures refused { (q : Request) (count : ℕ) (shards : List Shard) (files : List (List ℕ))
        (lists : List (List Symbol)) → IsValid q → AreAllShards count shards
        → AreTextsOfShards q shards files → AreRead files lists
        → (r : MergeRefusal) → IsMergeRefusal files r → ⊥ }
    ensures text { (q : Request) (opening : List Job) (count : ℕ) (shards : List Shard)
        (files : List (List ℕ)) (lists : List (List Symbol)) → IsValid q → IsOpening q opening
        → 1 ≤ count → count ≤ 8 → AreAllShards count shards → AreTextsOfShards q shards files
        → AreRead files lists
        → (text : List ℕ) → IsMergedText files text ↔ IsText q beginning 0 text }
{}
