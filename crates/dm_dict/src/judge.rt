//! The first fault of a message: of its command, of the bits of its header, or of its AVPs; which command a header goes
//! by (RFC 6733, 3 and 7).
ghost use Rattle.std.specs.Prelude.{◌≡◌, false, List, option_map, IfSome};
ghost use Rattle.dm_wire.specs.declared.avp.Avp.{Avp};
ghost use Rattle.dm_wire.specs.Borrowed.{Lists};
ghost use Rattle.dm_wire.specs.Spelling.{SpellsList};
ghost use Rattle.dm_tables.specs.Tables.{defined};
ghost use Rattle.dm_dict.specs.Faults.{command_for, wrong_bits, faults, first, has_none};
ghost use Rattle.dm_dict.specs.Found.{finds_missing};
ghost use Rattle.dm_dict.specs.Judgement.{shown};
ghost use Rattle.dm_dict.specs.Linked.{IsLinked};
ghost use Rattle.dm_dict.specs.Links.{rule_links};

use crate::codes::{COMMAND_UNSUPPORTED, INVALID_HDR_BITS};
use crate::judged::{Failed, Judged};
use crate::linked::{Linked, LinkedCommand, LinkedRule};
use crate::message_avps::judge_message_avps;
use dm_wire::laws::members_are_what_octets_spell;
use dm_wire::{AvpsRef, Header};
use std::alloc::Global;

/// Groups that may stand inside each other.
pub(crate) const GROUPS: u32 = 8;

/// The command whose rule a message of this header has, if it is defined. All answers that report an error have one
/// rule, that of command 0 with ERR.
pub(crate) fn command_for_header<'d>(
    dictionary: &'d Linked,
    header: &Header,
) -> Option<LinkedCommand<'d>>
    requires { IsLinked dictionary.now }
    ensures def { option_map (λ command. command.def.now) result
        ≡ command_for (defined dictionary.now.tables) header.now }
    ensures links { IfSome result (λ command. command.links.now
        ≡ rule_links dictionary.now.tables.avps.items command.def.now.rule) }
{
    let error_answer = !header.request && header.error;
    let code = if error_answer { 0 } else { header.command };
    dictionary.linked_command(code, header.request, error_answer)
}

/// The first fault of a message of this header and these AVPs, whose AVPs are counted in memory under a long rule,
/// where it is given and there is some. It never answers want of memory.
#[inline(always)]
pub(crate) fn judge_message<'a>(
    dictionary: &Linked,
    header: &Header,
    list: AvpsRef<'a>,
    alloc: Option<Global>,
) -> Judged<'a>
    requires linked { IsLinked dictionary.now }
    ensures fault { (l : List Avp) → Lists list.entry l
        → shown result ≡ first (faults (defined dictionary.now.tables) (record { header = header.now; avps = l })) }
    ensures missing { finds_missing result ≡ false }
{
    let failed = Failed::Nothing;
    let Some(LinkedCommand { def, links }) = command_for_header(dictionary, header) else {
        return Judged::Bad {
            code: COMMAND_UNSUPPORTED,
            failed,
        };
    };
    if has_wrong_e_or_t_bit(header) {
        return Judged::Bad {
            code: INVALID_HDR_BITS,
            failed,
        };
    }
    let rule = LinkedRule {
        entries: &def.rule,
        links,
    };
    judge_message_avps(dictionary, rule, list, alloc)
}

/// Whether nothing is wrong with a message of this header and these AVPs. It never answers want of memory.
pub(crate) fn is_message_good(
    alloc: Global,
    dictionary: &Linked,
    header: &Header,
    list: AvpsRef<'_>,
) -> bool
    requires linked { IsLinked dictionary.now }
    ensures { (l : List Avp) → Lists list.entry l
        → result ≡ has_none (faults (defined dictionary.now.tables) (record { header = header.now; avps = l })) }
{
    match judge_message(dictionary, header, list, Some(alloc)) {
        Judged::Good => true,
        Judged::Bad { .. } => false,
    }
}

/// The first fault of a message of this header, whose AVPs the octets spell. It takes no memory.
pub(crate) fn judge_spelled_message<'a>(
    dictionary: &Linked,
    header: &Header,
    octets: &'a [u8],
) -> Judged<'a>
    requires linked { IsLinked dictionary.now }
    ensures fault { (l : List Avp) → SpellsList l octets.now
        → shown result ≡ first (faults (defined dictionary.now.tables) (record { header = header.now; avps = l })) }
    ensures missing { finds_missing result ≡ false }
{
    members_are_what_octets_spell();
    judge_message(dictionary, header, AvpsRef::Spelled(octets), None)
}

/// Whether the E bit is set in a request, or the T bit in an answer.
pub(crate) fn has_wrong_e_or_t_bit(header: &Header) -> bool
    ensures { result ≡ wrong_bits header.now }
{
    (header.request && header.error) || (!header.request && header.retransmit)
}
