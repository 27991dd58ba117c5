//! The trait of what says something of each packet in turn.
ghost use Rattle.std.specs.Prelude.{◌≡◌, ◌++◌, ℕ, List, OnOk};
ghost use Rattle.std.specs.String.{string_bytes};
ghost use Rattle.dm_tables.specs.Definitions.{Definitions};
ghost use Rattle.dm_capture.specs.Packets.{Captured, captured_of};
ghost use Rattle.dm_view_lines.specs.declared.message_reports.Task.{Task};

use dm_capture::Packet;
use dm_dict::{Dictionary, NoMemory};
use dm_view_lines::Task;
use std::alloc::Global;

/// What says something of each packet in turn.
pub(crate) trait PacketSpeaker {
    // What it says of a packet, and what it is then.
    ghost says: { Definitions → Task → Self → Captured → Self → List ℕ → Type 0 };

    /// Appends what is said of a packet.
    fn say_packet(
        &mut self,
        alloc: Global,
        dictionary: &Dictionary,
        task: Task,
        packet: &Packet,
        text: &mut String,
    ) -> Result<(), NoMemory>
        ensures said { OnOk result ((more : List ℕ) × (string_bytes text.new ≡ string_bytes text.old ++ more)
            × says dictionary.now task self.old (captured_of packet.now) self.new more) };
}
