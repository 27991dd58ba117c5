//! How a call ended, of which one request for memory may have been refused.
ghost use Rattle.std.specs.Prelude.{◌≡◌, true, false};
ghost use Rattle.dm_refusal.specs.declared.ends.End.{End};

/// How it ended.
#[derive(Clone, Copy, Debug, PartialEq, Eq)]
pub enum End {
    /// It answered as its row, and none was refused.
    Whole,
    /// Want of memory, nothing had changed, and it answered as its row when it was done again.
    Again,
    /// It answered although one was refused.
    Anyway,
    /// Want of memory although none was refused.
    Alone,
    /// It didn't answer as its row, or something had changed.
    Changed,
    /// It refused otherwise.
    Fault,
}

/// How a call ended that answered, as its row or not, and of which a request was refused or none.
pub fn end_of_answered_call(refused: bool, right: bool) -> End
    ensures right { result ≡ End.Whole → right ≡ true }
    ensures unrefused { result ≡ End.Whole → refused ≡ false }
{
    if !right {
        End::Changed
    } else if refused {
        End::Anyway
    } else {
        End::Whole
    }
}

/// How a call ended that wanted memory, as a request was refused or though none was, and then answered as its row or
/// not.
pub fn end_of_repeated_call(refused: bool, right: bool) -> End
    ensures right { result ≡ End.Again → right ≡ true }
    ensures refused { result ≡ End.Again → refused ≡ true }
{
    if !refused {
        End::Alone
    } else if right {
        End::Again
    } else {
        End::Changed
    }
}

/// The first end, or the second where that is worse: Whole is best, then Again.
pub fn worse_end(one: End, other: End) -> End
    ensures one { result ≡ End.Whole → one ≡ End.Whole }
    ensures other { result ≡ End.Whole → other ≡ End.Whole }
{
    match (one, other) {
        (End::Whole, other) => other,
        (one, End::Whole) => one,
        (End::Again, other) => other,
        (one, _) => one,
    }
}
