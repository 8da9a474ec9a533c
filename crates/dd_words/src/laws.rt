ghost use Rattle.std.specs.Prelude.{◌≡◌, ℕ, List, Option};
ghost use Rattle.dd_model.specs.Request.{IsValid};
ghost use Rattle.dd_model.specs.declared.requests.Request.{Request};
ghost use Rattle.dd_front_jobs.specs.declared.pace.Pace.{Pace};
ghost use Rattle.dd_words.specs.declared.commands.Command.{Command};
ghost use Rattle.dd_words.specs.declared.commands.Command.TheVariants.{Catalogue};
ghost use Rattle.dd_words.specs.Grammar.{IsCommand};

/// Words ask for at most one command.
pub fn words_ask_for_one_command()
    ensures { (words : List (List ℕ)) (c d : Command) → IsCommand words c → IsCommand words d
        → c ≡ d }
{}

/// Each request of taken words is valid.
pub fn taken_requests_are_valid()
    ensures { (words : List (List ℕ)) (q : Request) (pace : Pace) (pause : Option ℕ)
        (checkpoint : Option (List ℕ))
        → IsCommand words (Catalogue q pace pause checkpoint) → IsValid q }
{}
