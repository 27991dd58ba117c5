//! What a dictionary says of a message it doesn't copy: good, or its first fault with the failed AVP where it lies,
//! and a copy of this (RFC 6733, 7 and 7.5).
ghost use Rattle.std.specs.Prelude.{◌≡◌, IfOk, OnErr, IsSome, IsSomeAnd};
ghost use Rattle.dm_dict.specs.Judgement.{failed_of, shown, verdict_of};

use crate::verdict::Verdict;
use dm_value::NoMemory;
use dm_wire::{Avp, AvpRef, Octets};
use std::alloc::Global;

/// The failed AVP of a fault (RFC 6733, 7.5), where it lies.
#[derive(Clone, Copy, Debug)]
pub enum Failed<'a> {
    /// The fault has none.
    Nothing,
    /// An AVP of the message as it stands there, alone; with empty data where it is a group whose data
    /// isn't AVPs one after the other.
    Found(AvpRef<'a>),
    /// An example of an AVP that the message lacks: M is set, P clear, and the data is zeros.
    Example {
        /// The AVP Code.
        code: u32,
        /// The Vendor-ID, where it has one.
        vendor: Option<u32>,
        /// How many octets of zero the data is: the least that its type takes.
        zeros: u32,
    },
}

/// What a dictionary says of a message that it doesn't copy: good, or its first fault (RFC 6733, 7).
#[derive(Clone, Copy, Debug)]
pub enum Judged<'a> {
    /// Nothing is wrong.
    Good,
    /// The first fault.
    Bad {
        /// The Result-Code (RFC 6733, 7.1).
        code: u32,
        /// The failed AVP (7.5).
        failed: Failed<'a>,
    },
}

impl Failed<'_> {
    /// A copy of the failed AVP, if there is one.
    fn copied_avp(self, alloc: Global) -> Result<Option<Avp>, NoMemory>
        ensures found { IfOk result (λ avp. avp ≡ failed_of self.entry) }
        ensures memory { OnErr result (IsSome (failed_of self.entry)) }
    {
        Ok(match self {
            Failed::Nothing => None,
            Failed::Found(avp) => Some(avp.copied(alloc)?),
            Failed::Example {
                code,
                vendor,
                zeros,
            } => Some(Avp {
                code,
                vendor,
                mandatory: true,
                protected: false,
                bytes: Octets::from_vec(vec![in alloc; 0; zeros as usize]?),
            }),
        })
    }
}

impl Judged<'_> {
    /// The verdict, with a copy of the failed AVP, or want of memory for it.
    pub fn verdict(self, alloc: Global) -> Result<Verdict, NoMemory>
        ensures found { IfOk result (λ verdict. verdict ≡ verdict_of (shown self.entry)) }
        ensures memory { OnErr result (IsSomeAnd (shown self.entry) (λ fault. IsSome fault.failed)) }
    {
        match self {
            Judged::Good => Ok(Verdict::Good),
            Judged::Bad { code, failed } => {
                let failed = failed.copied_avp(alloc)?;
                Ok(Verdict::Bad { code, failed })
            }
        }
    }
}
