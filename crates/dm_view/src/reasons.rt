//! Why an AVP is a fault (RFC 6733, 7.1.5).
ghost use Rattle.std.specs.Prelude.{◌≡◌, Some, IfOk};
ghost use Rattle.std.specs.Option.{option_copied};
ghost use Rattle.std.specs.String.{string_bytes};
ghost use Rattle.dm_view.specs.JsonCheck.{failed_words};
ghost use Rattle.dm_view.specs.Reasons.{bound_words, length_words, reason_words, reason_text};

use dm_dict::codes::{
    AVP_NOT_ALLOWED, AVP_OCCURS_TOO_MANY_TIMES, AVP_UNSUPPORTED, INVALID_AVP_LENGTH,
    INVALID_AVP_VALUE, MISSING_AVP,
};
use dm_dict::{AvpDef, AvpType, least_len};
use std::alloc::{AllocError, Global};
use std::fmt;

/// What stands before the least length of a type: `, at least ` where its data may be longer, else `, not `.
fn words_before_least_length(kind: AvpType) -> &'static str
    ensures { result.now ≡ bound_words kind }
{
    match kind {
        AvpType::OctetString
        | AvpType::Address
        | AvpType::UTF8String
        | AvpType::DiameterIdentity
        | AvpType::DiameterURI
        | AvpType::Grouped => ", at least ",
        AvpType::Integer32
        | AvpType::Integer64
        | AvpType::Unsigned32
        | AvpType::Unsigned64
        | AvpType::Time
        | AvpType::Enumerated => ", not ",
    }
}

/// A length that data of the type doesn't have.
#[derive(Clone, Copy)]
struct LengthWords {
    kind: Option<AvpType>,
    length: usize,
}

impl fmt::Display for LengthWords {
    ghost output = { λ words. Some (length_words words.kind words.length) };

    fn fmt<W: fmt::Write>(&self, f: &mut fmt::Formatter<W>) -> fmt::Result {
        match self.kind {
            None => write!(f, "length {}", self.length),
            Some(AvpType::Grouped) => f.write_str("no AVPs one after the other"),
            Some(kind) => write!(
                f,
                "length {}{}{}",
                self.length,
                words_before_least_length(kind),
                least_len(kind)
            ),
        }
    }
}

/// Why an AVP of this type, whose data has this length, is a fault of this Result-Code.
#[derive(Clone, Copy)]
pub(crate) struct Reason {
    pub code: u32,
    pub kind: Option<AvpType>,
    pub length: usize,
}

impl fmt::Display for Reason {
    ghost output = { λ reason. Some (reason_words reason.code reason.kind reason.length) };

    fn fmt<W: fmt::Write>(&self, f: &mut fmt::Formatter<W>) -> fmt::Result {
        let (kind, length) = (self.kind, self.length);
        match self.code {
            AVP_UNSUPPORTED => f.write_str("not known, and mandatory"),
            AVP_NOT_ALLOWED => f.write_str("not allowed here"),
            AVP_OCCURS_TOO_MANY_TIMES => f.write_str("one too many"),
            INVALID_AVP_VALUE => f.write_str("wrong value"),
            INVALID_AVP_LENGTH => write!(f, "{}", LengthWords { kind, length }),
            _ => Ok(()),
        }
    }
}

/// The reason as it stands behind the front of the AVP.
#[derive(Clone, Copy)]
pub(crate) struct ReasonBehind(pub Reason);

impl fmt::Display for ReasonBehind {
    ghost output = { λ reason. Some (reason_text reason.0.code reason.0.kind reason.0.length) };

    fn fmt<W: fmt::Write>(&self, f: &mut fmt::Formatter<W>) -> fmt::Result {
        match self.0.code {
            AVP_UNSUPPORTED
            | AVP_NOT_ALLOWED
            | AVP_OCCURS_TOO_MANY_TIMES
            | INVALID_AVP_VALUE
            | INVALID_AVP_LENGTH => write!(f, ": {}", self.0),
            _ => Ok(()),
        }
    }
}

/// Why an AVP of this definition, whose data has this length, is a fault.
pub(crate) fn fault_reason(
    alloc: Global,
    code: u32,
    def: Option<&AvpDef>,
    length: usize,
) -> Result<String, AllocError>
    ensures { IfOk result (λ words. string_bytes words ≡ failed_words code (option_copied def.entry) length) }
{
    if code == MISSING_AVP {
        return format!(in alloc; "missing");
    }
    let kind = def.map(|def| def.kind);
    format!(in alloc; "{}", Reason { code, kind, length })
}
