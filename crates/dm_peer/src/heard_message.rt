//! What a message says to a peer: its word, and why it is refused (RFC 6733, 5.3 and 5.6).
ghost use Rattle.std.specs.Prelude.{◌≡◌, List, Some};
ghost use Rattle.dm_wire.specs.declared.avp.Avp.{Avp};
ghost use Rattle.dm_wire.specs.Spelling.{SpellsList};
ghost use Rattle.dm_base.specs.declared.kind.Caps.{Caps};
ghost use Rattle.dm_base.specs.declared.kind.Kind.{Kind};
ghost use Rattle.dm_machine.specs.declared.inputs.Word.{Word};
ghost use Rattle.dm_base.specs.Shown.{ShowsCaps, ShowsKind};
ghost use Rattle.dm_dict.specs.Judgement.{shown};
ghost use Rattle.dm_peer.specs.Lent.{heard_by};
ghost use Rattle.dm_peer.specs.Said.{
  good,
  heard_of,
  heard_in,
  kind_under,
  said_by_kind,
  sender_host,
  is_other_sender,
  word_of_bad,
  word_of_cea,
  word_of_code,
  refusal_of_caps,
  heard_caps,
  word_heard,
  header_heard,
};
ghost use Rattle.dm_peer.specs.Sent.{header_of, fault_in};

use crate::Config;
use crate::config::is_same_host;
use dm_base::codes::{NO_COMMON_APPLICATION, NO_COMMON_SECURITY, UNKNOWN_PEER};
use dm_base::{BaseCommand, CapsRef, KindRef, SenderRef, view};
use dm_dict::{Failed, Judged};
use dm_machine::Word;
use dm_wire::codes::results::UNABLE_TO_COMPLY;
use dm_wire::laws::spelled_avps_are_members;
use dm_wire::{Header, MessageRef};

/// A message that was read, with its parts where they lie: its header, its word, and why it is refused, where it is
/// (RFC 6733, 7.1 and 7.5).
#[derive(Clone, Copy, Debug)]
pub(crate) struct HeardRef<'a> {
    pub(crate) header: &'a Header,
    pub(crate) word: Word,
    pub(crate) judged: Judged<'a>,
}

/// The word of a message that fails its check.
fn word_of_bad_message(header: &Header) -> Word
    ensures { result ≡ word_of_bad header.now }
{
    match BaseCommand::of(header.command) {
        Some(BaseCommand::CapabilitiesExchange) if header.request => Word::CerRefused,
        Some(BaseCommand::CapabilitiesExchange) => Word::CeaFailed,
        Some(BaseCommand::DeviceWatchdog) if header.request => Word::DwrBad,
        Some(BaseCommand::DeviceWatchdog) => Word::DwaBad,
        _ if header.request => Word::DprBad,
        _ => Word::DpaBad,
    }
}

/// The Result-Code with which the capabilities of a peer are refused; None where they are not.
fn refusal_code_of_caps(config: &Config, caps: &CapsRef<'_>) -> Option<u32>
    ensures { (theirs : Caps) → ShowsCaps caps.now theirs → result ≡ refusal_of_caps config.now theirs }
{
    if !is_same_host(caps.host, config.peer.as_slice()) {
        return Some(UNKNOWN_PEER);
    }
    if !caps.common(&config.node) {
        return Some(NO_COMMON_APPLICATION);
    }
    if !caps.secure() {
        return Some(NO_COMMON_SECURITY);
    }
    None
}

/// A message that isn't refused.
#[inline(always)]
pub(crate) fn heard_as_good<'a>(header: &'a Header, word: Word) -> HeardRef<'a>
    ensures { heard_of result ≡ good header.now word }
{
    HeardRef {
        header,
        word,
        judged: Judged::Good,
    }
}

/// A CER that passes its check, refused where the capabilities that it tells are.
// (It is rare, and in a function of its own in the machine's code too.)
#[inline(never)]
fn accept_or_refuse_cer<'a>(config: &Config, header: &'a Header, caps: &CapsRef<'_>) -> HeardRef<'a>
    ensures { (theirs : Caps) → ShowsCaps caps.now theirs
        → heard_of result ≡ heard_caps header.now (refusal_of_caps config.now theirs) }
{
    match refusal_code_of_caps(config, caps) {
        None => heard_as_good(header, Word::Cer),
        Some(code) => HeardRef {
            header,
            word: Word::CerRefused,
            judged: Judged::Bad {
                code,
                failed: Failed::Nothing,
            },
        },
    }
}

/// The word of a CEA of this Result-Code, by its class alone: each of 2000 to 2999 opens (RFC 6733, 7.1).
fn word_of_cea_code_class(code: u32) -> Word
    ensures { result ≡ word_of_code code }
{
    if code >= 2000 && code <= 2999 {
        Word::Cea
    } else {
        Word::CeaFailed
    }
}

/// The host of the message's sender: the first Origin-Host; where there is none, no octets.
fn sender_host<'a>(message: &MessageRef<'a>) -> &'a [u8]
    ensures { (l : List Avp) → SpellsList l message.now.rest.now
        → result.now ≡ sender_host (record { header = message.now.header; avps = l }) }
{
    spelled_avps_are_members();
    let sender = SenderRef { rest: message.rest };
    sender.host()
}

/// Whether hosts are compared, and the message's sender isn't the configured peer.
fn fails_host_comparison(config: &Config, message: &MessageRef<'_>) -> bool
    ensures { (l : List Avp) → SpellsList l message.now.rest.now
        → result ≡ is_other_sender config.now (record { header = message.now.header; avps = l }) }
{
    config.compares && !is_same_host(sender_host(message), config.peer.as_slice())
}

/// The word of a CEA of this Result-Code: that of one that fails its check where hosts are compared and another host
/// sent it.
#[inline(never)]
fn word_of_cea(config: &Config, message: &MessageRef<'_>, code: u32) -> Word
    ensures { (l : List Avp) → SpellsList l message.now.rest.now
        → result ≡ word_of_cea config.now (record { header = message.now.header; avps = l }) code }
{
    if fails_host_comparison(config, message) {
        Word::CeaFailed
    } else {
        word_of_cea_code_class(code)
    }
}

/// A message of this kind, put into `heard`, which says of its header that it is good.
#[inline(always)]
fn set_heard_by_kind<'a>(
    config: &Config,
    message: &'a MessageRef<'_>,
    kind: KindRef<'_>,
    heard: &mut HeardRef<'a>,
)
    requires good { (w : Word) × (heard_of heard.old ≡ good message.now.header w) }
    ensures { (l : List Avp) → SpellsList l message.now.rest.now → (k : Kind) → ShowsKind kind.entry k
        → heard_of heard.new ≡ said_by_kind config.now (record { header = message.now.header; avps = l }) k }
{
    match kind {
        KindRef::Cer(caps) => *heard = accept_or_refuse_cer(config, &message.header, &caps),
        KindRef::Cea(code) => heard.word = word_of_cea(config, message, code),
        KindRef::Dwr => heard.word = Word::Dwr,
        KindRef::Dwa => heard.word = Word::Dwa,
        KindRef::Dpr(_) => heard.word = Word::Dpr,
        KindRef::Dpa => heard.word = Word::Dpa,
        KindRef::Other => heard.word = Word::Other,
    }
}

/// What the message says to a peer of this configuration, put into `heard`. It never answers want of memory.
#[tactic(auto, unfolding(crate::specs::Said::kind_under))]
#[inline(always)]
pub(crate) fn hear_message<'a>(
    config: &Config,
    message: &'a MessageRef<'a>,
    heard: &mut HeardRef<'a>,
)
    requires good { (w : Word) × (heard_of heard.old ≡ good message.now.header w) }
    ensures { (l : List Avp) → SpellsList l message.now.rest.now
        → heard_of heard.new ≡ heard_in config.now (record { header = message.now.header; avps = l }) }
{
    match view(config.dictionary.get(), message) {
        Ok(kind) => set_heard_by_kind(config, message, kind, heard),
        Err(judged) => {
            heard.word = word_of_bad_message(&message.header);
            heard.judged = judged;
        }
    }
}

/// The word of what was heard; `Unreadable` where no message was.
pub(crate) fn word_heard_or_unreadable(heard: Option<&HeardRef<'_>>) -> Word
    ensures { result ≡ word_heard (heard_by heard.entry) }
{
    match heard {
        Some(heard) => heard.word,
        None => Word::Unreadable,
    }
}

/// The header of what was heard; None where no message was.
pub(crate) fn header_heard(heard: Option<&HeardRef<'_>>) -> Option<Header>
    ensures { result ≡ header_heard (heard_by heard.entry) }
{
    match heard {
        Some(heard) => Some(*heard.header),
        None => None,
    }
}

/// The header of what was heard; one of zeros where no message was.
pub(crate) fn header_heard_or_zeros(heard: Option<&HeardRef<'_>>) -> Header
    ensures { result ≡ header_of (heard_by heard.entry) }
{
    match heard {
        Some(heard) => *heard.header,
        None => Header {
            request: false,
            proxiable: false,
            error: false,
            retransmit: false,
            command: 0,
            application: 0,
            hop_id: 0,
            end_id: 0,
        },
    }
}

/// Why what was heard is refused, where it lies. A refusal without a fault, of which there is none, would have 5012.
pub(crate) fn fault_heard_or_unable_to_comply<'a>(heard: Option<&HeardRef<'a>>) -> Judged<'a>
    ensures { shown result ≡ Some (fault_in (heard_by heard.entry)) }
{
    let none = Judged::Bad {
        code: UNABLE_TO_COMPLY,
        failed: Failed::Nothing,
    };
    match heard {
        Some(heard) => match heard.judged {
            Judged::Good => none,
            bad => bad,
        },
        None => none,
    }
}
