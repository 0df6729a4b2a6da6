//! The program's words.

ghost use Rattle.std.specs.Prelude.{◌∷◌, [], map, string_bytes};
ghost use Rattle.sysapi_serve.specs.Words.{Asks};

/// What the program is asked to do.
#[derive(Clone, Copy, Debug, PartialEq, Eq)]
pub(crate) enum Asked {
    /// To serve one session.
    Once,
    /// To write a summary of the journal.
    Check,
}

/// What the words ask, where they are in the language.
pub(crate) fn asked_by(words: &[String]) -> Option<Asked>
    ensures { Asks (map (λ w. string_bytes w) words.now) result }
{
    match words {
        [word] => only(word.as_str()),
        _ => None,
    }
}

/// What the only word asks.
fn only(word: &str) -> Option<Asked>
    ensures { Asks (word.now ∷ []) result }
{
    if word == "once" {
        Some(Asked::Once)
    } else if word == "check" {
        Some(Asked::Check)
    } else {
        None
    }
}
