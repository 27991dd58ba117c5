//! All that is wrong with a message, a line for each fault (RFC 6733, 7).
ghost use Rattle.std.specs.Prelude.{◌≡◌, ◌++◌, List, codes, map, option_map, flat_map, OnOk, IfOk};
ghost use Rattle.std.specs.Option.{option_copied};
ghost use Rattle.std.specs.String.{string_bytes};
ghost use Rattle.dm_wire.specs.declared.avp.Avp.{Avp};
ghost use Rattle.dm_wire.specs.Borrowed.{avp_of};
ghost use Rattle.dm_wire.specs.Spelling.{SpellsList};
ghost use Rattle.dm_dict.specs.Judgement.{failed_of};
ghost use Rattle.dm_dict.specs.Located.{located_faults};
ghost use Rattle.dm_dict.specs.Locating.{told_at};
ghost use Rattle.dm_view.specs.Check.{step_text, without_data, failed_length, front_words};
ghost use Rattle.dm_view.specs.Results.{result_text};
ghost use Rattle.dm_view.specs.Check.{failed_view, fault_line, verdict_words, are_none, check_view};

use crate::avps::{put_avp_name_or_placeholder, put_avp_without_data};
use crate::header::put_header_line;
use crate::reasons::{Reason, ReasonBehind};
use crate::results::result_name_or_placeholder;
use crate::texts_and_numbers::put_words_and_number;
use dm_dict::codes::MISSING_AVP;
use dm_dict::{AvpDef, Dictionary, Failed, LocatedFault, NoMemory, Step};
use dm_text::put_decimal;
use dm_wire::{AvpRef, MessageRef};
use std::alloc::{AllocError, Global};

/// Appends a group round an AVP, behind a space and before ` /`: its name, and which of that name it is in its list.
#[tactic(auto, unfolding(crate::specs::Check::step_text))]
fn put_spaced_step_and_slash(
    text: &mut String,
    dictionary: &Dictionary,
    step: &Step,
) -> Result<(), AllocError>
    ensures { OnOk result (string_bytes text.new ≡ string_bytes text.old ++ step_text dictionary.now.avps step.now) }
{
    text.push_str(" ")?;
    put_avp_name_or_placeholder(text, dictionary.avp_by_code(step.code, step.vendor))?;
    text.push_str("[")?;
    put_decimal(text, step.nth as u64)?;
    text.push_str("] /")
}

/// Appends the groups round an AVP, the outermost first, each behind a space and before ` /`.
fn put_spaced_steps_and_slashes(
    text: &mut String,
    dictionary: &Dictionary,
    path: &[Step],
) -> Result<(), AllocError>
    ensures { OnOk result (string_bytes text.new
        ≡ string_bytes text.old ++ flat_map (step_text dictionary.now.avps) path.now) }
{
    let mut left = path;
    while let [step, rest @ ..] = left {
        put_spaced_step_and_slash(text, dictionary, step)?;
        left = rest;
    }
    Ok(())
}

/// The failed AVP without its data; None where the fault names no AVP.
pub(crate) fn failed_avp_without_data(failed: Failed<'_>) -> Option<AvpRef<'_>>
    ensures { option_map avp_of result ≡ option_map without_data (failed_of failed.entry) }
{
    match failed {
        Failed::Nothing => None,
        Failed::Found(avp) => Some(AvpRef { bytes: &[], ..avp }),
        Failed::Example { code, vendor, .. } => Some(AvpRef {
            code,
            vendor,
            mandatory: true,
            protected: false,
            bytes: &[],
        }),
    }
}

/// How many octets the data of the failed AVP has; 0 where the fault names no AVP.
pub(crate) fn failed_avp_data_length(failed: Failed<'_>) -> usize
    ensures { result ≡ failed_length (failed_of failed.entry) }
{
    match failed {
        Failed::Nothing => 0,
        Failed::Found(avp) => avp.bytes.len(),
        Failed::Example { zeros, .. } => zeros as usize,
    }
}

/// Appends a failed AVP, whose data has this length, behind a space: that it is lacking, or its front and why it is a
/// fault.
fn put_spaced_failed_avp_and_reason(
    text: &mut String,
    def: Option<&AvpDef>,
    code: u32,
    length: usize,
    avp: AvpRef<'_>,
) -> Result<(), AllocError>
    ensures { OnOk result (string_bytes text.new
        ≡ string_bytes text.old ++ front_words code (option_copied def.entry) length (avp_of avp.entry)) }
{
    if code == MISSING_AVP {
        text.push_str(" lacks ")?;
        return put_avp_without_data(text, def, avp);
    }
    text.push_str(" ")?;
    put_avp_without_data(text, def, avp)?;
    let kind = def.map(|def| def.kind);
    let reason = Reason { code, kind, length };
    write!(text, "{}", ReasonBehind(reason))
}

/// Appends a failed AVP and why it is a fault, behind a space, where there is one.
fn put_spaced_failed_avp_if_any(
    text: &mut String,
    dictionary: &Dictionary,
    code: u32,
    length: usize,
    failed: Option<AvpRef<'_>>,
) -> Result<(), AllocError>
    ensures { OnOk result (string_bytes text.new
        ≡ string_bytes text.old ++ failed_view dictionary.now.avps code length (option_map avp_of failed.entry)) }
{
    let Some(avp) = failed else {
        return Ok(());
    };
    let def = dictionary.avp_by_code(avp.code, avp.vendor);
    put_spaced_failed_avp_and_reason(text, def, code, length, avp)
}

/// Appends a Result-Code with its name, two spaces before it.
fn put_indented_result_code_and_name(text: &mut String, code: u32) -> Result<(), AllocError>
    ensures { OnOk result (string_bytes text.new ≡ string_bytes text.old ++ (codes "  " ++ result_text code)) }
{
    put_words_and_number(text, "  ", code)?;
    text.push_str(" ")?;
    text.push_str(result_name_or_placeholder(code))
}

/// Appends the line of a fault.
fn put_fault_line(
    text: &mut String,
    dictionary: &Dictionary,
    fault: &LocatedFault<'_>,
) -> Result<(), AllocError>
    ensures { OnOk result (string_bytes text.new
        ≡ string_bytes text.old ++ fault_line dictionary.now.avps (told_at fault.now)) }
{
    let (code, failed) = (fault.fault.code, fault.fault.failed);
    put_indented_result_code_and_name(text, code)?;
    put_spaced_steps_and_slashes(text, dictionary, fault.path.as_slice())?;
    let length = failed_avp_data_length(failed);
    put_spaced_failed_avp_if_any(
        text,
        dictionary,
        code,
        length,
        failed_avp_without_data(failed),
    )?;
    text.push_str("\n")?;
    Ok(())
}

/// Appends the lines of faults, one after the other.
fn put_fault_lines(
    text: &mut String,
    dictionary: &Dictionary,
    faults: &[LocatedFault<'_>],
) -> Result<(), AllocError>
    ensures { OnOk result (string_bytes text.new
        ≡ string_bytes text.old ++ flat_map (fault_line dictionary.now.avps) (map told_at faults.now)) }
{
    let mut left = faults;
    while let [fault, rest @ ..] = left {
        put_fault_line(text, dictionary, fault)?;
        left = rest;
    }
    Ok(())
}

/// Appends `good ` and returns true where there are no faults; else `bad ` and false.
fn put_verdict_word_and_space(
    text: &mut String,
    faults: &[LocatedFault<'_>],
) -> Result<bool, AllocError>
    ensures shown { OnOk result (string_bytes text.new
        ≡ string_bytes text.old ++ verdict_words (map told_at faults.now)) }
    ensures good { IfOk result (λ good. good ≡ are_none (map told_at faults.now)) }
{
    match faults {
        [] => {
            text.push_str("good ")?;
            Ok(true)
        }
        [_, ..] => {
            text.push_str("bad ")?;
            Ok(false)
        }
    }
}

/// Appends `good` or `bad`, the header of a message and a line for each of its faults. True where there are none.
fn put_verdict_header_and_found_faults(
    text: &mut String,
    dictionary: &Dictionary,
    message: &MessageRef<'_>,
    faults: &[LocatedFault<'_>],
) -> Result<bool, AllocError>
    ensures shown { (l : List Avp) → map told_at faults.now
        ≡ located_faults dictionary.now (record { header = message.now.header; avps = l })
        → OnOk result (string_bytes text.new ≡ string_bytes text.old
        ++ check_view dictionary.now (record { header = message.now.header; avps = l })) }
    ensures good { IfOk result (λ good. good ≡ are_none (map told_at faults.now)) }
{
    let good = put_verdict_word_and_space(text, faults)?;
    put_header_line(text, dictionary, &message.header)?;
    put_fault_lines(text, dictionary, faults)?;
    Ok(good)
}

/// Appends all that is wrong with the message by the dictionary: `good` or `bad`, its header, and a line for each fault
/// in order. True where it is good.
pub fn put_verdict_header_and_faults(
    alloc: Global,
    text: &mut String,
    dictionary: &Dictionary,
    message: &MessageRef<'_>,
) -> Result<bool, NoMemory>
    ensures shown { (l : List Avp) → SpellsList l message.now.rest.now → OnOk result (string_bytes text.new
        ≡ string_bytes text.old ++ check_view dictionary.now (record { header = message.now.header; avps = l })) }
    // It is good where it has no faults.
    ensures good { (l : List Avp) → SpellsList l message.now.rest.now → IfOk result (λ good.
        good ≡ are_none (located_faults dictionary.now (record { header = message.now.header; avps = l }))) }
{
    let faults = dictionary.located_in(alloc, message)?;
    let good = put_verdict_header_and_found_faults(text, dictionary, message, faults.as_slice())?;
    Ok(good)
}
