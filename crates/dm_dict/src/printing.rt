//! Verdicts as text, and copies of them.
ghost use Rattle.std.specs.Prelude.{◌≡◌, Some};
ghost use Rattle.dm_dict.specs.Printed.{verdict_text};

use crate::Verdict;
use std::alloc::AllocError;
use std::fmt;

/// As `good`, or `bad 5005 264 -M- 00`: the Result-Code and, where there is one, the failed AVP.
impl fmt::Display for Verdict {
    ghost output = { λ verdict. Some (verdict_text verdict) };

    fn fmt<W: fmt::Write>(&self, f: &mut fmt::Formatter<W>) -> fmt::Result {
        match self {
            Verdict::Good => f.write_str("good"),
            Verdict::Bad { code, failed } => match failed {
                Some(avp) => write!(f, "bad {code} {avp}"),
                None => write!(f, "bad {code}"),
            },
        }
    }
}

/// A copy, or want of memory.
impl Clone for Verdict {
    ghost is_clone = { λ verdict copy. copy ≡ verdict };

    fn clone(&self) -> Result<Verdict, AllocError> {
        match self {
            Verdict::Good => Ok(Verdict::Good),
            Verdict::Bad { code, failed } => Ok(Verdict::Bad {
                code: *code,
                failed: failed.clone()?,
            }),
        }
    }
}
