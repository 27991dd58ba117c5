//! Laws of what octets spell. Each function is a law: it does nothing, and its contract is the law.
ghost use Rattle.dm_wire.specs.Members.{MembersSpell, SpelledAreMembers};
ghost use Rattle.dm_wire.specs.AvpEquality.{EqualAvps, EqualLists, EqualMessages};
ghost use Rattle.dm_wire.specs.OneAnswer.{OneMessage, OneAvp, OneList, OneBadOctet, OneRefusal};
ghost use Rattle.dm_wire.specs.OneAnswer.{NoMessageRefused, ListOrBadOctet, MessageOrFault};
ghost use Rattle.dm_wire.specs.RoundTrip.{CanonicalSpells, ReadsBack, OneSize, CanonicalListSpells};
ghost use Rattle.dm_wire.specs.RoundTrip.{ListReadsBack, CanonicalHeaderSpelled};
ghost use Rattle.dm_wire.specs.Walks.{WalkTells};
ghost use Rattle.dm_wire.specs.Fitting.{AvpSpelled, AvpSized, ListSpelled, MessageSpelled};
ghost use Rattle.dm_wire.specs.Framing.{SpelledIsFramed, CanonicalIsFramed};
ghost use Rattle.dm_wire.specs.Whole.{MessageInSpells, SpelledIsIn};
ghost use Rattle.dm_wire.specs.BaseNumbers.{AvpCodes, CommandCodes, ResultCodes, Limits};

/// Of two spellings of messages that begin one text neither is longer, and both spell one message.
/// So where a stream of messages is cut doesn't depend on who cuts it (RFC 6733, 3).
pub fn octets_begin_with_one_message_at_most()
    ensures { OneMessage }
{}

/// Of two spellings of AVPs that begin one text neither is longer, and both spell one AVP (4.1).
pub fn octets_begin_with_one_avp_at_most()
    ensures { OneAvp }
{}

/// The members of octets are just the AVPs that the octets spell, one after the other (4.1 and 4.4).
pub fn members_are_what_octets_spell()
    ensures { MembersSpell }
{}

/// AVPs that are spelled, one after the other, are the members. It stands for the layers above.
pub fn spelled_avps_are_members()
    ensures { SpelledAreMembers }
{}

/// Octets spell at most one list of AVPs.
pub fn octets_spell_one_avp_list_at_most()
    ensures { OneList }
{}

/// At most one octet is where the first bad AVP begins.
pub fn at_most_one_octet_begins_bad_avp()
    ensures { OneBadOctet }
{}

/// Octets have at most one fault.
pub fn octets_have_at_most_one_fault()
    ensures { OneRefusal }
{}

/// Octets that spell a message have no fault.
pub fn octets_of_messages_have_no_fault()
    ensures { NoMessageRefused }
{}

/// Octets spell a list of AVPs, or there is a first bad one.
pub fn octets_spell_avps_or_have_bad_one()
    ensures { ListOrBadOctet }
{}

/// Octets spell a message, or have a fault.
pub fn octets_spell_message_or_have_fault()
    ensures { MessageOrFault }
{}

/// A header whose fields have room is spelled by its canonical octets. It stands for users.
pub fn canonical_octets_spell_header()
    ensures { CanonicalHeaderSpelled }
{}

/// A message that has a spelling is spelled by its canonical octets.
pub fn canonical_octets_spell_message()
    ensures { CanonicalSpells }
{}

/// The canonical octets of a message spell no other one: what is encoded and decoded is what it was.
pub fn encoded_messages_read_back()
    ensures { ReadsBack }
{}

/// All spellings of a message have as many octets as the canonical one.
pub fn message_spellings_have_one_size()
    ensures { OneSize }
{}

/// A list of AVPs that has a spelling is spelled by its canonical octets.
pub fn canonical_octets_spell_avps()
    ensures { CanonicalListSpells }
{}

/// The canonical octets of a list of AVPs spell no other one: what is encoded and decoded is what it
/// was.
pub fn encoded_avps_read_back()
    ensures { ListReadsBack }
{}

/// The answers of a whole walk are the AVPs that the octets spell, in order; where they spell none, the AVPs up to the
/// first bad octet and then that octet. So a walk that is collected is what `decode_avps` answers. It stands for users.
pub fn walks_tell_what_octets_spell()
    ensures { WalkTells }
{}

/// What `==` of AVPs computes is true just where they are equal.
pub fn equal_avps_are_the_same()
    ensures { EqualAvps }
{}

/// What `==` of lists of AVPs computes is true just where they are equal.
pub fn equal_avp_lists_are_the_same()
    ensures { EqualLists }
{}

/// What `==` of messages computes is true just where they are equal.
pub fn equal_messages_are_the_same()
    ensures { EqualMessages }
{}

/// The message in octets is just the one that they spell (3). It stands for the layers above.
pub fn message_in_octets_is_what_they_spell()
    ensures { MessageInSpells }
{}

/// What octets spell is found in them: `message_in` has just that message (3). `message_in_octets_is_what_they_spell`
/// is the other way round. It stands for the layers above.
pub fn spelled_message_is_found()
    ensures { SpelledIsIn }
{}

/// An AVP whose code, Length and Vendor-ID fit their fields is spelled by its canonical octets (4.1).
pub fn fitting_avps_have_canonical_spelling()
    ensures { AvpSpelled }
{}

/// The canonical octets of an AVP are as many as its Length, filled up to a multiple of 4 (4.1).
pub fn canonical_avps_have_padded_length()
    ensures { AvpSized }
{}

/// A list of such AVPs is spelled by its canonical octets.
pub fn fitting_avp_lists_have_canonical_spelling()
    ensures { ListSpelled }
{}

/// A message of such AVPs whose header's numbers fit their fields, and which has at most 16777212 octets, is spelled by
/// its canonical octets (3). So `encode` refuses such a message for want of memory alone.
pub fn fitting_messages_have_canonical_spelling()
    ensures { MessageSpelled }
{}

/// Octets that spell a message are a frame, for the greatest Message Length: a framer hands them out whole (3). So are
/// the canonical octets of a message whose AVPs stand in one that is spelled. It stands for the layers above.
pub fn spelled_and_canonical_messages_are_frames()
    ensures spelled { SpelledIsFramed }
    ensures canonical { CanonicalIsFramed }
{}

/// The AVP Codes are those of RFC 6733, 4.5.
pub fn avp_codes_are_those_of_the_rfc()
    ensures { AvpCodes }
{}

/// The Command Codes are those of RFC 6733, 3.1.
pub fn command_codes_are_those_of_the_rfc()
    ensures { CommandCodes }
{}

/// The Result-Codes are those of RFC 6733, 7.1.
pub fn result_codes_are_those_of_the_rfc()
    ensures { ResultCodes }
{}

/// The octets of a header and the greatest numbers of fields are those of RFC 6733, 3 and 4.1.
pub fn limits_are_those_of_the_rfc()
    ensures { Limits }
{}
