//! What stands before what is said of a message that was seen.

use dm_text::put_decimal;
use dm_trace::{Clock, Seen, put_seen, put_seen_members};
use dm_view::JsonText;
use dm_view_lines::Front;
use std::alloc::{AllocError, Global};

/// The number of a message, and when, between whom and in which packet it was seen: a line of its own, or members of
/// its object.
#[derive(Clone, Copy, Debug, PartialEq, Eq)]
pub struct SeenFront {
    /// Its place among the messages of the capture, from 1.
    pub number: u64,
    /// How its time is said.
    pub clock: Clock,
    /// When, between whom and in which packet.
    pub seen: Seen,
}

impl Front for SeenFront {
    ghost use Rattle.dm_trace_view.specs.Fronts.{front_seen};

    ghost before = { λ front. front_seen front.number front.clock front.seen };

    fn put_front_words(&self, text: &mut String) -> Result<(), AllocError> {
        put_decimal(text, self.number)?;
        text.push_str(": ")?;
        put_seen(text, self.clock, &self.seen)?;
        text.push_str("\n")
    }

    fn put_front_members(&self, alloc: Global, json: &mut JsonText) -> Result<(), AllocError> {
        let mut room = String::new(alloc);
        json.put_key("number")?;
        json.put_number(self.number)?;
        put_seen_members(json, &mut room, self.clock, &self.seen)?;
        Ok(())
    }
}
