//! The words for a syntax fault: a line that may not stand where it does.
ghost use Rattle.std.specs.Prelude.{◌≡◌, ◌++◌, ◌∷◌, [], OnOk, codes};
ghost use Rattle.std.specs.Fmt.{decimal};

use crate::push_decimal;
use std::alloc::AllocError;

/// Appends the words for the line of this number, which is out of place.
pub fn push_syntax_fault_line(text: &mut Vec<u8>, number: u64) -> Result<(), AllocError>
    ensures { OnOk result (text.new.items ≡ text.old.items ++ codes "fault syntax " ++ decimal number ++ 10 ∷ []) }
{
    text.extend_from_slice(b"fault syntax ")?;
    push_decimal(text, number)?;
    text.push(b'\n')?;
    Ok(())
}
