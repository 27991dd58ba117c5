//! The sender of a capabilities exchange, as the message has it (RFC 6733, 5.3).
ghost use Rattle.std.specs.Prelude.{◌≡◌, true, is_some};
ghost use Rattle.dm_wire.specs.Members.{members};

/// What a Capabilities-Exchange-Request or -Answer says of its sender, where it lies in the message
/// (RFC 6733, 5.3). `dm_base::sender` gives one.
#[derive(Clone, Copy, Debug)]
pub struct SenderRef<'a> {
    /// The octets of the message's AVPs.
    pub rest: &'a [u8],
    pub ghost framed: { is_some (members rest.now) ≡ true },
}
