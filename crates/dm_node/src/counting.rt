//! How many neighbours there are, told from how many there were.
ghost use Rattle.std.specs.Prelude.{◌≡◌, ◌<◌, IfSome, IfNone, length, suc};

use dm_peer::Peer;

/// One more than there were, which is no more than there are places.
pub(crate) fn count_after_adding_one(peers: &[Option<Peer>], before: usize) -> usize
    requires { before < length peers.now }
    ensures { result ≡ suc before }
{
    let _places = peers.len();
    before + 1
}

/// One less than there were, where one is gone.
pub(crate) fn count_after_removing(gone: &Option<Peer>, before: usize) -> usize
    requires { IfSome gone.now (λ _. 0 < before) }
    ensures gone { IfSome gone.now (λ _. before ≡ suc result) }
    ensures nobody { IfNone gone.now (result ≡ before) }
{
    match gone {
        Some(_) => before - 1,
        None => before,
    }
}
