//! The filter of messages: those pass it that say all that it asks for.
ghost use Rattle.std.specs.Prelude.{◌≡◌, List, not};
ghost use Rattle.std.specs.List.{list_any};
ghost use Rattle.dm_wire.specs.declared.avp.Avp.{Avp};
ghost use Rattle.dm_wire.specs.Borrowed.{avp_of, Lists};
ghost use Rattle.dm_wire.specs.Finding.{is_of};
ghost use Rattle.dm_wire.specs.Spelling.{SpellsList};
ghost use Rattle.dm_dict.specs.Faults.{faults, has_none};
ghost use Rattle.dm_view.specs.View.{command_of};
ghost use Rattle.dm_trace_view.specs.Filters.{same_host, says_asked, says_peer, tells_session, bears_name};
ghost use Rattle.dm_trace_view.specs.Filters.{tells_command, says_all, PassesFilter};

use dm_dict::{Dictionary, Judged};
use dm_wire::codes::avps::{DESTINATION_HOST, ORIGIN_HOST, SESSION_ID};
use dm_wire::laws::spelled_avps_are_members;
use dm_wire::{AvpRef, AvpsRef, Header, MessageRef};

/// A command that is asked for.
#[derive(Clone, Copy, Debug)]
pub enum Wanted<'a> {
    /// By its Command Code (RFC 6733, 3).
    Code(u32),
    /// By the name that the dictionary has for it, be it a request's or an answer's.
    Named(&'a [u8]),
}

/// What a message has to say, so that something is said of it: all of what is asked for.
#[derive(Clone, Copy, Debug)]
pub struct Filter<'a> {
    /// An Origin-Host or a Destination-Host that is this one, whatever the case of its letters (RFC 6733, 6.3 and 6.5).
    pub host: Option<&'a [u8]>,
    /// A Session-Id of these octets (8.8).
    pub session: Option<&'a [u8]>,
    /// Its command.
    pub command: Option<Wanted<'a>>,
    /// Whether something has to be wrong with it.
    pub bad: bool,
}

/// What one AVP has to say.
#[derive(Clone, Copy, Debug)]
enum Asked<'a> {
    Host(&'a [u8]),
    Session(&'a [u8]),
}

/// Whether two hosts are one, `A` to `Z` taken as `a` to `z`.
fn is_same_host(one: &[u8], other: &[u8]) -> bool
    ensures { result ≡ same_host one.now other.now }
{
    one.eq_ignore_ascii_case(other)
}

/// Whether an AVP has this code, and no vendor.
fn has_code_without_vendor(avp: AvpRef<'_>, code: u32) -> bool
    ensures { result ≡ is_of code None (avp_of avp.entry) }
{
    avp.code == code && avp.vendor.is_none()
}

/// Whether an AVP says what is asked for.
fn avp_says(avp: AvpRef<'_>, asked: Asked<'_>) -> bool
    ensures { result ≡ says_asked asked.entry (avp_of avp.entry) }
{
    match asked {
        Asked::Host(host) => {
            (has_code_without_vendor(avp, ORIGIN_HOST)
                || has_code_without_vendor(avp, DESTINATION_HOST))
                && is_same_host(avp.bytes, host)
        }
        Asked::Session(session) => has_code_without_vendor(avp, SESSION_ID) && avp.bytes == session,
    }
}

/// Whether one of the AVPs themselves says what is asked for; it looks into no group.
fn any_avp_says(list: AvpsRef<'_>, asked: Asked<'_>) -> bool
    ensures { (l : List Avp) → Lists list.entry l → result ≡ list_any (says_asked asked.entry) l }
{
    let mut left = list;
    while let Some((avp, rest)) = left.split_first() {
        if avp_says(avp, asked) {
            return true;
        }
        left = rest;
    }
    false
}

/// Whether a message says the host that is asked for; where none is, each message does.
fn says_host_if_asked(message: &MessageRef<'_>, host: Option<&[u8]>) -> bool
    ensures { (l : List Avp) → SpellsList l message.now.rest.now → result
        ≡ says_peer host.entry (record { header = message.now.header; avps = l }) }
{
    spelled_avps_are_members();
    match host {
        Some(host) => any_avp_says(AvpsRef::Spelled(message.rest), Asked::Host(host)),
        None => true,
    }
}

/// Whether a message says the Session-Id that is asked for; where none is, each message does.
fn says_session_if_asked(message: &MessageRef<'_>, session: Option<&[u8]>) -> bool
    ensures { (l : List Avp) → SpellsList l message.now.rest.now → result
        ≡ tells_session session.entry (record { header = message.now.header; avps = l }) }
{
    spelled_avps_are_members();
    match session {
        Some(session) => any_avp_says(AvpsRef::Spelled(message.rest), Asked::Session(session)),
        None => true,
    }
}

/// Whether the one name that the dictionary has for the command of a header is this one, octet for octet.
fn is_command_named(dictionary: &Dictionary, header: &Header, name: &[u8]) -> bool
    ensures { result ≡ bears_name (command_of dictionary.now header.now) name.now }
{
    match dictionary.command(header.command, header.request, false) {
        Some(command) => command.name.as_slice() == name,
        None => false,
    }
}

/// Whether the command of a header is the one that is asked for; where none is, each is.
fn says_command_if_asked(
    dictionary: &Dictionary,
    header: &Header,
    wanted: Option<Wanted<'_>>,
) -> bool
    ensures { result ≡ tells_command dictionary.now wanted.entry header.now }
{
    match wanted {
        Some(Wanted::Code(code)) => header.command == code,
        Some(Wanted::Named(name)) => is_command_named(dictionary, header, name),
        None => true,
    }
}

/// Whether something is wrong with a message.
fn is_bad_message(dictionary: &Dictionary, message: &MessageRef<'_>) -> bool
    ensures { (l : List Avp) → SpellsList l message.now.rest.now → result
        ≡ not (has_none (faults dictionary.now (record { header = message.now.header; avps = l }))) }
{
    !matches!(dictionary.judge(message), Judged::Good)
}

/// Whether a message passes the filter: it says all that is asked for.
fn message_passes_filter(
    filter: Filter<'_>,
    dictionary: &Dictionary,
    message: &MessageRef<'_>,
) -> bool
    ensures { (l : List Avp) → SpellsList l message.now.rest.now → result
        ≡ says_all filter.entry dictionary.now (record { header = message.now.header; avps = l }) }
{
    says_host_if_asked(message, filter.host)
        && says_session_if_asked(message, filter.session)
        && says_command_if_asked(dictionary, &message.header, filter.command)
        && (!filter.bad || is_bad_message(dictionary, message))
}

/// Whether these octets pass the filter: a message that says all that is asked for, or octets that are none, where no
/// host, session or command is asked for. It never answers want of memory.
pub(crate) fn octets_pass_filter(filter: Filter<'_>, dictionary: &Dictionary, octets: &[u8]) -> bool
    ensures { PassesFilter filter.entry dictionary.now octets.now result }
{
    match MessageRef::read(octets) {
        Ok(message) => message_passes_filter(filter, dictionary, &message),
        Err(_) => filter.host.is_none() && filter.session.is_none() && filter.command.is_none(),
    }
}
