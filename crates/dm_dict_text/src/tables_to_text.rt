//! Tables printed as a text, which reads as them again (RFC 6733, 3.2).
ghost use Rattle.std.specs.Prelude.{◌≡◌, IfOk};
ghost use Rattle.dm_tables.specs.Definitions.{nothing_defined};
ghost use Rattle.dm_tables.specs.Tables.{defined, IsDictionary};
ghost use Rattle.dm_dict_text.specs.Printed.{printed};
ghost use Rattle.dm_dict_text.specs.Outcome.{Defines};

use crate::print::push_tables;
use dm_grammar::words_not_all_digits_are_names;
use dm_tables::Tables;
use dm_value::NoMemory;
use std::alloc::Global;

/// The text of the tables: vendors, AVPs, then commands, each in order of definition and on a line of its own; or want
/// of memory. Where there is a vendor or a list of values, it begins with the line `@ 2`.
pub fn print_tables(alloc: Global, tables: &Tables) -> Result<Vec<u8>, NoMemory>
    requires { IsDictionary tables.now }
    ensures text { IfOk result (λ text. text.items ≡ printed (defined tables.now)) }
    // Read over no definitions it gives these again.
    ensures again { IfOk result (λ text. Defines text.items nothing_defined (defined tables.now)) }
{
    let mut text = Vec::new(alloc);
    words_not_all_digits_are_names();
    push_tables(&mut text, tables)?;
    Ok(text)
}
