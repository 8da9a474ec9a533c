ghost use Rattle.std.specs.Prelude.{◌↔◌, ◌≤◌, ℕ, List, Option, map};
ghost use Rattle.std.specs.List.{AllByRecursion};
ghost use Rattle.dd_model.specs.Request.{IsValid};
ghost use Rattle.dd_model.specs.Symbol.{Symbol};
ghost use Rattle.dd_model.specs.Text.{IsText, beginning};
ghost use Rattle.dd_model.specs.declared.jobs.Job.{Job};
ghost use Rattle.dd_model.specs.declared.requests.Request.{Request};
ghost use Rattle.dd_front_jobs.specs.Opening.{IsOpening};
ghost use Rattle.dd_front_jobs.specs.declared.shards.Shard.{Shard};
ghost use Rattle.dd_front_jobs.specs.declared.portions.Portion.{Portion};
ghost use Rattle.dd_front_jobs.specs.Portions.{IsPortionText};
ghost use Rattle.dd_check.specs.Calls.{Done, Paused};
ghost use Rattle.dd_check.specs.Chains.{IsChain, HasBegun, EndsAs, IsJoined, held_after};
ghost use Rattle.dd_check.specs.Clauses.{MeetsClauses};
ghost use Rattle.dd_check.specs.ChainOutcomes.{IsCutAt};
ghost use Rattle.dd_shard.specs.ShardLists.{AreAllShards};
ghost use Rattle.dd_suite_commands.specs.Merges.{AreRead, IsMergedText, IsMergeRefusal};
ghost use Rattle.dd_suite_commands.specs.declared.merge_refusal.MergeRefusal.{MergeRefusal};
ghost use Rattle.dd_suite.specs.Chains.{ProgramCall, IsProgramCall, call_of};
ghost use Rattle.dd_suite.specs.ShardChains.{AreMadeByCalls};

/// What the program does with words of a run, over a store and a sink of which it is known what
/// they hold, is what a chain asks of its calls.
pub fn a_call_of_the_program_meets_the_clauses()
    ensures { (p : ProgramCall) → IsProgramCall p → MeetsClauses (call_of p) }
{}

/// Let a chain of calls of the program have begun, and let its last call have come to its end. Then
/// the calls have written the whole text of their portion together, whatever stopped the calls
/// before. The portion is the catalogue or the shard.
pub fn a_finished_chain_of_calls_writes_its_text()
    ensures { (p : Portion) (name : Option (List ℕ)) (calls : List ProgramCall)
        → (bytes : List ℕ) → AllByRecursion IsProgramCall calls
        → IsChain p name (map call_of calls) → HasBegun (map call_of calls)
        → EndsAs (map call_of calls) Done → IsJoined (map call_of calls) bytes
        → IsPortionText p beginning 0 bytes }
{}

/// If a chain of calls of the program has begun and its last call paused, the calls have written
/// the first lines together. The checkpoint says how many lines these are.
pub fn a_paused_chain_of_calls_writes_the_first_lines()
    ensures { (p : Portion) (name : Option (List ℕ)) (calls : List ProgramCall)
        → (bytes : List ℕ) → AllByRecursion IsProgramCall calls
        → IsChain p name (map call_of calls) → HasBegun (map call_of calls)
        → EndsAs (map call_of calls) Paused → IsJoined (map call_of calls) bytes
        → IsCutAt p (held_after (map call_of calls)) bytes }
{}

/// Let finished chains of calls have made the shards 1 to `count`, and let what they wrote together
/// be files. Then a merge of these files, in any order, is not refused, and its text is that of the
/// catalogue.
pub fn finished_chains_of_all_shards_merge_to_the_catalogue()
    ensures refused { (q : Request) (count : ℕ) (shards : List Shard) (files : List (List ℕ))
        (lists : List (List Symbol)) → IsValid q → AreAllShards count shards
        → AreMadeByCalls q shards files → AreRead files lists
        → (r : MergeRefusal) → IsMergeRefusal files r → ⊥ }
    ensures text { (q : Request) (opening : List Job) (count : ℕ) (shards : List Shard)
        (files : List (List ℕ)) (lists : List (List Symbol)) → IsValid q → IsOpening q opening
        → 1 ≤ count → count ≤ 8 → AreAllShards count shards → AreMadeByCalls q shards files
        → AreRead files lists
        → (text : List ℕ) → IsMergedText files text ↔ IsText q beginning 0 text }
{}
