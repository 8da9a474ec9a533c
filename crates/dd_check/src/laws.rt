ghost use Rattle.std.specs.Prelude.{◌≡◌, ℕ, List, Option};
ghost use Rattle.std.specs.List.{AllByRecursion};
ghost use Rattle.dd_model.specs.declared.requests.Request.{Request};
ghost use Rattle.dd_model.specs.declared.jobs.Position.{Position};
ghost use Rattle.dd_model.specs.declared.jobs.Position.TheVariants.{End};
ghost use Rattle.dd_model.specs.Text.{IsText, beginning};
ghost use Rattle.dd_front_jobs.specs.declared.portions.Portion.{Portion};
ghost use Rattle.dd_front_jobs.specs.Portions.{IsPortionText};
ghost use Rattle.dd_check.specs.Between.{AreLinesBetween};
ghost use Rattle.dd_check.specs.Calls.{Call, Done, Paused, lone_call};
ghost use Rattle.dd_check.specs.Clauses.{MeetsClauses};
ghost use Rattle.dd_check.specs.Chains.{IsChain, HasBegun, EndsAs, IsJoined, held_after};
ghost use Rattle.dd_check.specs.ChainOutcomes.{IsCutAt, IsFront};
ghost use Rattle.dd_check.specs.declared.checkpoint.Checkpoint.{Checkpoint};
ghost use Rattle.dd_check.specs.declared.faults.CheckFault.{CheckFault};
ghost use Rattle.dd_model.specs.Request.{IsValid};
ghost use Rattle.dd_check.specs.Ranges.{IsInRange};
ghost use Rattle.dd_check.specs.Places.{IsPlace};
ghost use Rattle.dd_check.specs.Checks.{IsCheckText, AreCountsInRange};
ghost use Rattle.dd_check.specs.Accepted.{IsCheckpointText};
ghost use Rattle.dd_check.specs.Refusals.{HasFault};

/// Let a chain have begun, and let its last call have come to its end. Then its calls have written
/// the whole text of its portion together, however often they were stopped. The portion is the
/// catalogue or the shard.
pub fn a_finished_chain_writes_its_text()
    ensures { (p : Portion) (name : Option (List ℕ)) (calls : List Call) (bytes : List ℕ)
        → IsChain p name calls → AllByRecursion MeetsClauses calls → HasBegun calls
        → EndsAs calls Done → IsJoined calls bytes → IsPortionText p beginning 0 bytes }
{}

/// If a chain has begun and its last call paused, its calls have written the first lines together.
/// The checkpoint says how many lines these are.
pub fn a_paused_chain_writes_the_first_lines()
    ensures { (p : Portion) (name : Option (List ℕ)) (calls : List Call) (bytes : List ℕ)
        → IsChain p name calls → AllByRecursion MeetsClauses calls → HasBegun calls
        → EndsAs calls Paused → IsJoined calls bytes → IsCutAt p (held_after calls) bytes }
{}

/// The calls of a chain make one text.
pub fn a_chain_is_joined_once()
    ensures { (calls : List Call) (a b : List ℕ) → IsJoined calls a → IsJoined calls b → a ≡ b }
{}

/// A chain that has begun makes some text.
pub fn a_begun_chain_makes_a_text()
    ensures { (p : Portion) (name : Option (List ℕ)) (calls : List Call) → IsChain p name calls
        → AllByRecursion MeetsClauses calls → HasBegun calls
        → (bytes : List ℕ) × IsJoined calls bytes }
{}

/// Whatever stopped its last call, a chain that has begun has written a prefix of the text of its
/// portion.
pub fn a_begun_chain_writes_a_front()
    ensures { (p : Portion) (name : Option (List ℕ)) (calls : List Call) (bytes : List ℕ)
        → IsChain p name calls → AllByRecursion MeetsClauses calls → HasBegun calls
        → IsJoined calls bytes → IsFront p bytes }
{}

/// Where the text from a position exists, the lines of all members from there to the end are that
/// text.
pub fn the_lines_to_the_end_are_the_text()
    ensures same { (p : Portion) (at : Position) (k l : ℕ) (bytes text : List ℕ)
        → AreLinesBetween p at End k l bytes → IsPortionText p at k text → bytes ≡ text }
    ensures lines { (p : Portion) (at : Position) (k : ℕ) (text : List ℕ)
        → IsPortionText p at k text → (l : ℕ) × AreLinesBetween p at End k l text }
{}

/// What is asked of each call can be met: a catalogue without a name that wrote its text does.
pub fn a_lone_catalogue_meets_the_clauses()
    ensures { (q : Request) (text : List ℕ) → IsText q beginning 0 text
        → MeetsClauses (lone_call q text) }
{}

/// A checkpoint text is that of one checkpoint.
pub fn a_checkpoint_text_tells_one_checkpoint()
    ensures { (text : List ℕ) (c d : Checkpoint) → IsCheckpointText text c
        → IsCheckpointText text d → c ≡ d }
{}

/// A text with a fault is no checkpoint text. So a text is read exactly where it is one.
pub fn a_faulty_text_tells_no_checkpoint()
    ensures { (text : List ℕ) (c : Checkpoint) (fault : CheckFault) → HasFault text fault
        → IsCheckpointText text c → ⊥ }
{}

/// A text has at most one fault.
pub fn a_text_has_one_fault()
    ensures { (text : List ℕ) (f g : CheckFault) → HasFault text f → HasFault text g → f ≡ g }
{}

/// The text that is written for values in range, with a position at which a catalogue may stop, is
/// a checkpoint text of these values: it reads back.
pub fn what_was_written_reads_back()
    ensures { (c : Checkpoint) (text : List ℕ) → IsCheckText c text → AreCountsInRange c
        → IsValid c.request → IsInRange c.request.chambers c.at → IsPlace c.request c.at
        → IsCheckpointText text c }
{}

/// A checkpoint has one text: its sets are written as their longest rows of numbers.
pub fn a_checkpoint_has_one_text()
    ensures { (c : Checkpoint) (a b : List ℕ) → IsCheckText c a → IsCheckText c b → a ≡ b }
{}
