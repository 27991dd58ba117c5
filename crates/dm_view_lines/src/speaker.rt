//! The trait of what says something of each line in turn.
ghost use Rattle.std.specs.Prelude.{◌≡◌, ◌++◌, ℕ, Bool, true, List, IfOk};
ghost use Rattle.std.specs.String.{string_bytes};
ghost use Rattle.dm_tables.specs.Definitions.{Definitions};
ghost use Rattle.dm_view_lines.specs.declared.message_reports.Task.{Task};

use crate::message_reports::Task;
use dm_dict::{Dictionary, NoMemory};
use std::alloc::Global;

/// What says something of each line in turn, until it says no more.
pub(crate) trait Speaker {
    /// Whether it goes on.
    ghost goes: { Self → Bool → Type 0 };
    /// What it says of the line of this number, and what it is then.
    ghost says: { Definitions → Task → Self → ℕ → List ℕ → Self → List ℕ → Type 0 };

    /// Appends what is said of the line of this number, and tells whether it goes on.
    fn say_line(
        &mut self,
        alloc: Global,
        dictionary: &Dictionary,
        task: Task,
        number: u64,
        line: &[u8],
        text: &mut String,
    ) -> Result<bool, NoMemory>
        requires going { goes self.old true }
        ensures said { IfOk result (λ going. (more : List ℕ) × (string_bytes text.new ≡ string_bytes text.old ++ more)
            × says dictionary.now task self.old number line.now self.new more) }
        ensures goes { IfOk result (λ going. goes self.new going) };
}
