//! A buffer whose front was taken: the room of those octets is used again.
ghost use Rattle.std.specs.Prelude.{◌≡◌, ◌≤◌, drop, vec_len};

/// Moves the octets behind the first `taken` to the front where they are no more than those, and answers where
/// they begin now. So each octet is moved at most once for each octet that was taken.
pub(crate) fn compact_if_mostly_taken(buffer: &mut Vec<u8>, taken: usize) -> usize
    requires { taken ≤ vec_len buffer.old }
    ensures within { result ≤ vec_len buffer.new }
    ensures rest { drop result buffer.new.items ≡ drop taken buffer.old.items }
{
    let rest = buffer.len() - taken;
    if taken < rest {
        return taken;
    }
    buffer.copy_within(taken.., 0);
    buffer.truncate(rest);
    0
}
