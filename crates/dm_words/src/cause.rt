//! The cause of a disconnect (RFC 6733, 5.4.3).
ghost use Rattle.std.specs.Prelude.{IfSome, IfNone};
ghost use Rattle.dm_text.specs.Numbers.{TellsNumber};
ghost use Rattle.dm_base.specs.declared.kind.Cause.{Cause};
ghost use Rattle.dm_base.specs.Built.{cause_number};

use dm_base::Cause;
use dm_text::read_number;

/// The cause whose number a word tells; None where it tells none's.
pub fn read_disconnect_cause_by_number(word: &[u8]) -> Option<Cause>
    ensures told { IfSome result (λ cause. TellsNumber (cause_number cause) word.now) }
    ensures none { IfNone result ((cause : Cause) → TellsNumber (cause_number cause) word.now → ⊥) }
{
    match read_number(word)? {
        0 => Some(Cause::Rebooting),
        1 => Some(Cause::Busy),
        2 => Some(Cause::DoNotWantToTalkToYou),
        _ => None,
    }
}
