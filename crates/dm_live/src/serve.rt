//! The loop over the lines.
ghost use Rattle.std.specs.Prelude.{◌≡◌, IfSome, IfErr, OnOk};
ghost use Rattle.dm_live.specs.Served.{Drafting, Serves, StopsShort};
ghost use Rattle.dm_live.specs.Settings.{no_settings};
ghost use Rattle.dm_live.specs.Stages.{stage_of};

use crate::fault::LiveFault;
use crate::input::next_line;
use crate::live::Live;
use dm_io::write_text_and_flush;
use std::alloc::Global;
use std::io::{BufRead, Write};

/// Configures a node of one peer or of several by the first lines, and answers these and each further one, up to the
/// end of the input.
///
/// Each line is answered before the next one is read.
pub fn serve_lines<R: BufRead, W: Write>(
    alloc: Global,
    reader: &mut R,
    writer: &mut W,
) -> Result<(), LiveFault>
    ensures whole { OnOk result (IfSome (R.remaining reader.old) (λ octets.
        Serves octets (W.contents writer.old) (W.contents writer.new))) }
    ensures stopped { IfErr result (λ fault. IfSome (R.remaining reader.old) (λ octets.
        StopsShort fault octets (W.contents writer.old) (W.contents writer.new))) }
{
    let mut live = Live::new(alloc);
    let done = answer_all_lines(alloc, &mut live, reader, writer);
    drop(live);
    done
}

/// Answers each line that the reader gives, up to the end of the input.
fn answer_all_lines<R: BufRead, W: Write>(
    alloc: Global,
    live: &mut Live,
    reader: &mut R,
    writer: &mut W,
) -> Result<(), LiveFault>
    requires { stage_of live.old ≡ Drafting no_settings }
    ensures whole { OnOk result (IfSome (R.remaining reader.old) (λ octets.
        Serves octets (W.contents writer.old) (W.contents writer.new))) }
    ensures stopped { IfErr result (λ fault. IfSome (R.remaining reader.old) (λ octets.
        StopsShort fault octets (W.contents writer.old) (W.contents writer.new))) }
{
    let mut line = Vec::new(alloc);
    let mut text = String::new(alloc);
    'line: for before in 0..u64::MAX {
        if !next_line(reader, &mut line)? {
            return Ok(());
        }
        text.clear();
        live.answer_line(alloc, before + 1, line.as_slice(), &mut text)?;
        match write_text_and_flush(writer, text.as_bytes()) {
            Ok(()) => {}
            Err(_) => return Err(LiveFault::Write),
        }
    }
    Err(LiveFault::Read)
}
