//! The ends of lines that are answered: words, and a number or octets behind them.
ghost use Rattle.std.specs.Prelude.{◌≡◌, ◌∷◌, ◌++◌, [], OnOk};
ghost use Rattle.std.specs.Fmt.{decimal};
ghost use Rattle.std.specs.String.{string_bytes};
ghost use Rattle.dm_live.specs.SenderLines.{octets_line};

use dm_text::{put_decimal, put_hexadecimal};
use std::alloc::AllocError;

/// Appends words, a number, and the end of the line.
pub(crate) fn put_number_line(text: &mut String, words: &str, number: u64) -> Result<(), AllocError>
    ensures { OnOk result (string_bytes text.new ≡ string_bytes text.old ++ words.now ++ decimal number ++ 10 ∷ []) }
{
    text.push_str(words)?;
    put_decimal(text, number)?;
    text.push_str("\n")
}

/// Appends words, octets in hexadecimal, and the end of the line.
#[tactic(auto, unfolding(crate::specs::SenderLines::octets_line))]
pub(crate) fn put_octets_line(
    text: &mut String,
    words: &str,
    octets: &[u8],
) -> Result<(), AllocError>
    ensures { OnOk result (string_bytes text.new ≡ string_bytes text.old ++ octets_line words.now octets.now) }
{
    text.push_str(words)?;
    put_hexadecimal(text, octets)?;
    text.push_str("\n")
}
