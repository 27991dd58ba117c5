//! The commands of the program, and the words that choose them.
ghost use Rattle.std.specs.Prelude.{◌≡◌, ◌∷◌, [], map, IfSome, IfNone};
ghost use Rattle.std.specs.String.{string_bytes};
ghost use Rattle.dm_tool.specs.declared.choice.Choice.{Choice};
ghost use Rattle.dm_tool.specs.Choice.{words_of};

/// A command of the program.
#[derive(Clone, Copy, Debug, PartialEq, Eq)]
pub enum Choice {
    /// Prints each message of the input as text.
    Show,
    /// Prints of each message of the input whether it is good, or its first fault.
    Check {
        /// Whether the input begins with a dictionary over the base one.
        with_dict: bool,
    },
    /// Turns what show prints back into octets.
    Build,
    /// Prints what becomes of two peers along a script.
    Replay,
}

/// The command that these words choose, the program's name left out; None where they choose none.
pub fn choose(words: &[String]) -> Option<Choice>
    ensures chosen { IfSome result (λ choice. map string_bytes words.now ≡ words_of choice) }
    ensures refused { IfNone result ((choice : Choice) → map string_bytes words.now ≡ words_of choice → ⊥) }
{
    match words {
        [word] => choice_of_word(word.as_str()),
        [word, option] => choice_with_option(word.as_str(), option.as_str()),
        _ => None,
    }
}

/// The command that one word chooses; None where it chooses none.
fn choice_of_word(word: &str) -> Option<Choice>
    ensures chosen { IfSome result (λ choice. word.now ∷ [] ≡ words_of choice) }
    ensures refused { IfNone result ((choice : Choice) → word.now ∷ [] ≡ words_of choice → ⊥) }
{
    match word {
        "show" => Some(Choice::Show),
        "check" => Some(Choice::Check { with_dict: false }),
        "build" => Some(Choice::Build),
        "replay" => Some(Choice::Replay),
        _ => None,
    }
}

/// The command that a word and its option choose.
fn choice_with_option(word: &str, option: &str) -> Option<Choice>
    ensures chosen { IfSome result (λ choice. word.now ∷ option.now ∷ [] ≡ words_of choice) }
    ensures refused { IfNone result ((choice : Choice) → word.now ∷ option.now ∷ [] ≡ words_of choice → ⊥) }
{
    if word == "check" && option == "--dict" {
        Some(Choice::Check { with_dict: true })
    } else {
        None
    }
}
