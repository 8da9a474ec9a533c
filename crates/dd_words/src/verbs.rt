ghost use Rattle.std.specs.Prelude.{◌≡◌, IfSome, IfNone};
ghost use Rattle.dd_words.specs.FirstWords.{first_word};

use crate::commands::FileKind;
use dd_template::Operation;

/// What the first word of a command says.
#[derive(Clone, Copy)]
pub(crate) enum Verb {
    /// `catalogue`.
    Catalogue,
    /// `resume`.
    Resume,
    /// `shard`.
    Shard,
    /// `resume-shard`.
    ResumeShard,
    /// `draw`.
    Draw,
    /// `exercise`.
    Exercise,
    /// `apply`.
    Apply,
    /// `merge`.
    Merge,
    /// A command on the symbols of a file.
    File(FileKind),
}

impl Verb {
    /// The verb of a first word, and None where the word is none.
    pub fn named(word: &str) -> Option<Verb>
        ensures some { IfSome result (λ verb. word.now ≡ first_word verb) }
        ensures none { IfNone result ((verb : Verb) → word.now ≡ first_word verb → ⊥) }
    {
        match word {
            "catalogue" => Some(Verb::Catalogue),
            "resume" => Some(Verb::Resume),
            "shard" => Some(Verb::Shard),
            "resume-shard" => Some(Verb::ResumeShard),
            "draw" => Some(Verb::Draw),
            "exercise" => Some(Verb::Exercise),
            "apply" => Some(Verb::Apply),
            "merge" => Some(Verb::Merge),
            "canon" => Some(Verb::File(FileKind::Canon)),
            "lines" => Some(Verb::File(FileKind::Lines)),
            "info" => Some(Verb::File(FileKind::Info)),
            "minimal" => Some(Verb::File(FileKind::Minimal)),
            "dual" => Some(Verb::File(FileKind::Dual)),
            "ambo" => Some(Verb::File(FileKind::Derived(Operation::Ambo))),
            "truncate" => Some(Verb::File(FileKind::Derived(Operation::Truncate))),
            "chamfer" => Some(Verb::File(FileKind::Derived(Operation::Chamfer))),
            "oriented" => Some(Verb::File(FileKind::Oriented)),
            "torus" => Some(Verb::File(FileKind::Torus)),
            "sheets" => Some(Verb::File(FileKind::Sheets)),
            _ => None,
        }
    }
}
