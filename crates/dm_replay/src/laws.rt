//! Laws of scripts and their replays. Each function is a law: it calls the laws that it stands on, and its contract is
//! the law. All stand for users.
ghost use Rattle.dm_replay.specs.OneScript.{OneScript, OneBadLine, NoScriptIsBad, NothingIsNotBad, SomeScript};
ghost use Rattle.dm_replay.specs.OneReplay.{OneRead, SomeRead, OneReplay, SomeReplay};

use dm_text::laws::{each_word_tells_number_or_none, joined_lines_have_joined_content};

/// A text is at most one script, or has at most one first bad line, never both; one that stands for nothing has none.
pub fn one_script_or_bad_line_at_most()
    ensures script { OneScript }
    ensures bad_line { OneBadLine }
    ensures not_both { NoScriptIsBad }
    ensures not_nothing { NothingIsNotBad }
{
    joined_lines_have_joined_content();
}

/// Each text is a script, has a first bad line, or stands for nothing: every line is empty or a comment.
pub fn each_text_is_script_bad_or_comments()
    ensures { SomeScript }
{
    joined_lines_have_joined_content();
    each_word_tells_number_or_none();
}

/// A text is read as one thing at most, and has at most one replay.
pub fn one_reading_and_replay_at_most()
    ensures read { OneRead }
    ensures replay { OneReplay }
{
    one_script_or_bad_line_at_most();
}

/// Each text is read as something, and has a replay.
pub fn each_text_has_a_replay()
    ensures read { SomeRead }
    ensures replay { SomeReplay }
{
    each_text_is_script_bad_or_comments();
}
