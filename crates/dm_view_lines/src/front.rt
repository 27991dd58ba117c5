//! What stands before what is said of a message.
ghost use Rattle.std.specs.Prelude.{◌≡◌, ◌++◌, OnOk};
ghost use Rattle.std.specs.String.{string_bytes};
ghost use Rattle.json.specs.Json.{Members};
ghost use Rattle.json.specs.Tree.{members_tokens};
ghost use Rattle.dm_view_lines.specs.Fronts.{SaidFront, by_number};

use dm_text::put_decimal;
use dm_view::JsonText;
use std::alloc::{AllocError, Global};

/// What stands before what is said of a message: its number alone, as of a `u64`, or more.
pub trait Front {
    // Before the words, and the first members of the object.
    ghost before: { Self → SaidFront };

    /// Appends what stands before the words. Where memory is wanted, what is appended is of no use.
    fn put_front_words(&self, text: &mut String) -> Result<(), AllocError>
        ensures { OnOk result (string_bytes text.new ≡ string_bytes text.old ++ (before self.now).words) };

    /// Appends the first members of an object that is open. Where memory is wanted, what is appended is of no use.
    fn put_front_members(&self, alloc: Global, json: &mut JsonText) -> Result<(), AllocError>
        ensures { (more : Members) → OnOk result (json.new ++ members_tokens more
            ≡ json.old ++ members_tokens ((before self.now).members more)) };
}

impl Front for u64 {
    ghost before = { by_number };

    fn put_front_words(&self, text: &mut String) -> Result<(), AllocError> {
        put_decimal(text, *self)?;
        text.push_str(": ")
    }

    fn put_front_members(&self, _alloc: Global, json: &mut JsonText) -> Result<(), AllocError> {
        json.put_key("number")?;
        json.put_number(*self)
    }
}
