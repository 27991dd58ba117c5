//! Laws of what packets hold, and of what is handed out of one direction of a connection. Each function is a law: it
//! does nothing, and its contract is the law.
ghost use Rattle.dm_flows.specs.Laws.{OneSegment, SegmentOrReason, OneReason};
ghost use Rattle.dm_flows.specs.Order.{EachPassageIsInOrder, EachPassageIsWhole, EachNumberIsFound, OneStream};
ghost use Rattle.dm_flows.specs.Order.{OrderChangesNothing};
ghost use Rattle.dm_flows.specs.Accounts.{EachOctetIsAccounted};
ghost use Rattle.dm_flows.specs.FlowOrder.{EachStreamIsInOrder, EachStreamIsWhole};

/// A packet holds one segment at most, or there is one reason at most why it holds none, never both.
pub fn packets_hold_one_segment_or_reason()
    ensures segment { OneSegment }
    ensures either { SegmentOrReason }
    ensures reason { OneReason }
{}

/// What is handed out of one direction of a connection is a front of its stream: of each number the octet that came
/// first, in order, without a gap, and nothing twice. Where the next octet is missing it is the whole stream.
pub fn octets_go_out_in_stream_order()
    ensures front { EachPassageIsInOrder }
    ensures whole { EachPassageIsWhole }
    // Numbers stand where their sequence numbers say.
    ensures found { EachNumberIsFound }
{}

/// Octets that came have at most one stream, and the same one in whatever order they came and however often, where they
/// agree.
pub fn any_order_makes_the_same_stream()
    ensures one { OneStream }
    ensures order { OrderChangesNothing }
{}

/// As many octets of payloads as came in a direction are in messages that were handed out, in order behind those, wait
/// behind one that is missing, are repetitions, or were passed over (counted up to 2^64 - 1): in whatever order
/// segments come, messages are asked for and connections begin.
pub fn octets_of_payloads_add_up()
    ensures { EachOctetIsAccounted }
{}

/// What is handed out of a direction, as long as its stream isn't left, is a front of that stream: message by message,
/// of each number the octet that came first, without a gap, and nothing twice. Where the next octet is missing it is
/// the whole stream.
pub fn messages_are_a_front_of_their_stream()
    ensures front { EachStreamIsInOrder }
    ensures whole { EachStreamIsWhole }
{}
