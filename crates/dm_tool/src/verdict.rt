//! Verdicts and faults of dictionaries as text.
ghost use Rattle.std.specs.Prelude.{◌≡◌, ◌≢◌, ◌++◌, ◌∷◌, [], option_map, OnOk, IfOk, IfErr};
ghost use Rattle.std.specs.String.{string_bytes};
ghost use Rattle.dm_dict_text.specs.declared.fault.DictFault.TheVariants as dict;
ghost use Rattle.dm_dict.specs.Judgement.{shown, verdict_of};
ghost use Rattle.dm_wire.specs.Borrowed.{avp_of};
ghost use Rattle.dm_tool.specs.Check.{is_good_verdict, verdict_text, verdict_line, dictionary_fault_text};

use crate::fault::ToolFault;
use crate::header_and_avp_text::push_avp;
use dm_dict::{DictFault, Failed, Judged, Verdict};
use dm_text::push_decimal;
use dm_wire::{Avp, AvpRef};
use std::alloc::{AllocError, Global};

/// Appends the line of the verdict that was found, and tells whether it is good. An AVP of the message isn't copied:
/// only the example of one that it lacks is made.
pub fn push_verdict_line_of_judged(
    alloc: Global,
    text: &mut Vec<u8>,
    judged: Judged<'_>,
) -> Result<bool, ToolFault>
    ensures line { OnOk result (text.new.items
        ≡ text.old.items ++ (verdict_line (verdict_of (shown judged.entry))).0) }
    ensures good { IfOk result (λ good. good ≡ is_good_verdict (verdict_of (shown judged.entry))) }
    ensures fault { IfErr result (λ e. e ≡ ToolFault.Memory) }
{
    match judged {
        Judged::Bad {
            code,
            failed: Failed::Found(avp),
        } => {
            push_bad_verdict_line(text, code, Some(avp))?;
            Ok(false)
        }
        _ => {
            let verdict = judged.verdict(alloc)?;
            let good = push_verdict_line(text, &verdict);
            drop(verdict);
            Ok(good?)
        }
    }
}

/// Appends the line for a verdict, and tells whether it is good.
fn push_verdict_line(text: &mut Vec<u8>, verdict: &Verdict) -> Result<bool, AllocError>
    ensures line { OnOk result (text.new.items ≡ text.old.items ++ (verdict_line verdict.now).0) }
    ensures good { IfOk result (λ good. good ≡ is_good_verdict verdict.now) }
{
    match verdict {
        Verdict::Good => text.extend_from_slice(b"good\n")?,
        Verdict::Bad { code, failed } => push_bad_verdict_line(
            text,
            *code,
            failed.as_ref().map(Avp::borrowed),
        )?,
    }
    Ok(matches!(verdict, Verdict::Good))
}

/// Appends the line for a fault: its Result-Code and the failed AVP, where there is one.
fn push_bad_verdict_line(
    text: &mut Vec<u8>,
    code: u32,
    failed: Option<AvpRef<'_>>,
) -> Result<(), AllocError>
    ensures { OnOk result (text.new.items
        ≡ text.old.items ++ verdict_text (Verdict.Bad code (option_map avp_of failed.entry)) ++ 10 ∷ []) }
{
    text.extend_from_slice(b"bad ")?;
    push_decimal(text, u64::from(code))?;
    if let Some(avp) = failed {
        text.push(b' ')?;
        push_avp(text, avp)?;
    }
    text.push(b'\n')?;
    Ok(())
}

/// Appends the words for a fault of a dictionary. Want of memory has no words, and is answered as such.
#[tactic(auto, unfolding(crate::specs::Check::dictionary_fault_text))]
pub fn put_dictionary_fault_words(text: &mut String, fault: DictFault) -> Result<(), ToolFault>
    ensures words { OnOk result (string_bytes text.new ≡ string_bytes text.old ++ dictionary_fault_text fault) }
    ensures known { OnOk result (fault ≢ dict.NoMemory) }
    ensures memory { IfErr result (λ e. e ≡ ToolFault.Memory) }
{
    match fault {
        DictFault::Syntax(line) => write!(text, "fault dict Syntax {line}")?,
        DictFault::Range(line) => write!(text, "fault dict Range {line}")?,
        DictFault::Duplicate(line) => write!(text, "fault dict Duplicate {line}")?,
        DictFault::Order(line) => write!(text, "fault dict Order {line}")?,
        DictFault::UnknownName(line) => write!(text, "fault dict UnknownName {line}")?,
        DictFault::NoMemory => return Err(ToolFault::Memory),
    }
    Ok(())
}
