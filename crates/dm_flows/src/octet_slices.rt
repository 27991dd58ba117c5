//! The front of octets, and what is behind it.
ghost use Rattle.std.specs.Prelude.{◌≡◌, take, drop};

/// The first so many of the octets, or all where there are fewer.
pub(crate) fn first_octets(octets: &[u8], size: usize) -> &[u8]
    ensures { result.now ≡ take size octets.now }
{
    if octets.len() < size {
        octets
    } else {
        &octets[..size]
    }
}

/// The octets without so many at the front; none where there are fewer.
pub(crate) fn without_first_octets(octets: &[u8], passed: usize) -> &[u8]
    ensures { result.now ≡ drop passed octets.now }
{
    if octets.len() < passed {
        &octets[octets.len()..]
    } else {
        &octets[passed..]
    }
}
