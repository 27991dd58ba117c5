//! Messages that are built line by line, and the lines of their octets.
ghost use Rattle.std.specs.Prelude.{◌≡◌, ◌++◌, ◌∷◌, [], ◌⊎◌, ◌&&◌, ◌≢◌, ℕ, Bool, true, false, None, List};
ghost use Rattle.std.specs.Prelude.{IfOk, IfErr, OnOk};
ghost use Rattle.dm_wire.specs.declared.avp.Avp.{Avp};
ghost use Rattle.dm_wire.specs.declared.message.Message.{Message};
ghost use Rattle.dm_text.specs.Lines.{content, trimmed, is_skipped};
ghost use Rattle.dm_tool.specs.Messages.{TellsAvp, TellsAll};
ghost use Rattle.dm_tool.specs.Build.{BuildsOctets, BuildsTooLong, BuildsMessages};
ghost use Rattle.dm_tool.specs.Progress.{last_message, HoldsBehind, GoesOnNowhere};

use crate::avp_line::read_avp_line;
use crate::fault::ToolFault;
use crate::header_line::read_header_line;
use crate::message_text::push_message_fault_words;
use dm_text::{is_empty_or_comment, push_hexadecimal, trim_spaces};
use dm_wire::{Avp, AvpList, Header, Message};
use std::alloc::Global;
use std::mem;

/// What the lines so far tell: the messages before the last are in the text, and the next line may
/// go on with the last.
#[derive(Drop)]
pub struct Building {
    text: Vec<u8>,
    good: bool,
    last: Option<Header>,
    avps: Vec<Avp>,
}

impl Building {
    /// Behind no lines.
    pub fn new(alloc: Global) -> Building
        ensures { HoldsBehind [] result }
    {
        Building {
            text: Vec::new(alloc),
            good: true,
            last: None,
            avps: Vec::new(alloc),
        }
    }

    /// The text for the messages before the last.
    pub fn into_text_before_last_message(self) -> Vec<u8>
        ensures { result.items ≡ self.text.items }
    {
        self.text
    }

    /// The text for all messages, and whether all are good.
    pub fn into_whole_text(mut self, alloc: Global) -> Result<(Vec<u8>, bool), ToolFault>
        ensures built { IfOk result (λ built. (lines : List (List ℕ)) → HoldsBehind lines self
            → (l : List Message) × TellsAll l lines × BuildsMessages l built.0.items built.1) }
        ensures fault { IfErr result (λ e. e ≡ ToolFault.Memory) }
    {
        self.push_last_message_and_clear_avps(alloc)?;
        Ok((self.text, self.good))
    }

    /// Goes on with a line. False, and nothing is changed, where the line is out of place.
    pub fn take_line(&mut self, alloc: Global, line: &[u8]) -> Result<bool, ToolFault>
        ensures taken { IfOk result (λ taken. taken ≡ true → (lines : List (List ℕ)) → HoldsBehind lines self.old
            → HoldsBehind (lines ++ content (line.now ∷ [])) self.new) }
        ensures refused { IfOk result (λ taken. taken ≡ false
            → (is_skipped (trimmed line.now) ≡ false) × GoesOnNowhere self.old.last (trimmed line.now)) }
        ensures kept { IfOk result (λ taken. taken ≡ false → self.new ≡ self.old) }
        ensures fault { IfErr result (λ e. e ≡ ToolFault.Memory) }
    {
        let line = trim_spaces(line);
        if is_empty_or_comment(line) {
            return Ok(true);
        }
        match read_header_line(line) {
            Some(header) => {
                self.push_last_message_and_clear_avps(alloc)?;
                self.last = Some(header);
                Ok(true)
            }
            None => self.take_avp_line(alloc, line),
        }
    }

    /// Goes on with the line of an AVP of the last message. False where it is none.
    fn take_avp_line(&mut self, alloc: Global, line: &[u8]) -> Result<bool, ToolFault>
        ensures taken { IfOk result (λ taken. taken ≡ true → (lines : List (List ℕ)) → HoldsBehind lines self.old
            → HoldsBehind (lines ++ line.now ∷ []) self.new) }
        ensures refused { IfOk result (λ taken. taken ≡ false → self.old.last ≢ None
            → (a : Avp) → TellsAvp a line.now → ⊥) }
        ensures kept { IfOk result (λ taken. taken ≡ false → self.new ≡ self.old) }
        ensures fault { IfErr result (λ e. e ≡ ToolFault.Memory) }
    {
        if self.last.is_none() {
            return Ok(false);
        }
        match read_avp_line(alloc, line)? {
            Some(avp) => {
                self.avps.push(avp)?;
                Ok(true)
            }
            None => Ok(false),
        }
    }

    /// Puts the last message into the text, where there is one, and has no AVPs then; its header stays.
    fn push_last_message_and_clear_avps(&mut self, alloc: Global) -> Result<(), ToolFault>
        ensures built { OnOk result ((more : List ℕ) × (fine : Bool)
            × (self.new.text.items ≡ self.old.text.items ++ more)
            × (self.new.good ≡ (self.old.good && fine))
            × BuildsMessages (last_message self.old.last self.old.avps.items) more fine) }
        ensures emptied { OnOk result (self.new.avps.items ≡ []) }
        ensures fault { IfErr result (λ e. e ≡ ToolFault.Memory) }
    {
        if let Some(header) = self.last {
            let avps = mem::replace(&mut self.avps, Vec::new(alloc));
            let message = Message {
                header,
                avps: AvpList::from_vec(avps),
            };
            let fine = push_octets_or_fault_line(alloc, &mut self.text, &message)?;
            self.good &= fine;
            self.avps = message.avps.into_vec();
        }
        self.avps.clear();
        Ok(())
    }
}

/// Appends the line of the octets of a message in hexadecimal, or of its fault. True where it has octets.
#[tactic(auto, unfolding(crate::specs::Text::fault_text))]
fn push_octets_or_fault_line(
    alloc: Global,
    text: &mut Vec<u8>,
    message: &Message,
) -> Result<bool, ToolFault>
    ensures built { IfOk result (λ good. (more : List ℕ) × (text.new.items ≡ text.old.items ++ more)
        × (BuildsOctets message.now more good ⊎ BuildsTooLong message.now more good)) }
    ensures fault { IfErr result (λ e. e ≡ ToolFault.Memory) }
{
    match message.encode(alloc) {
        Ok(octets) => {
            push_hexadecimal(text, octets.as_slice())?;
            text.push(b'\n')?;
            Ok(true)
        }
        Err(fault) => {
            push_message_fault_words(text, fault)?;
            text.push(b'\n')?;
            Ok(false)
        }
    }
}
