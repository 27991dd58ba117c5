//! What the Result-Codes of verdicts are called (RFC 6733, 7.1.3 and 7.1.5).
ghost use Rattle.std.specs.Prelude.{◌≡◌, Some};
ghost use Rattle.dm_view.specs.Results.{avp_result, result_name};

use dm_dict::codes::{
    AVP_NOT_ALLOWED, AVP_OCCURS_TOO_MANY_TIMES, AVP_UNSUPPORTED, COMMAND_UNSUPPORTED,
    INVALID_AVP_LENGTH, INVALID_AVP_VALUE, INVALID_HDR_BITS, MISSING_AVP,
};
use std::fmt;

/// The name of a Result-Code that a verdict may have, behind its number.
#[derive(Clone, Copy)]
pub struct ResultName(pub u32);

/// The name of a Result-Code of a fault of AVPs; the placeholder `Result-Code` for any other.
fn avp_result_name_or_placeholder(code: u32) -> &'static str
    ensures { result.now ≡ avp_result code }
{
    match code {
        AVP_UNSUPPORTED => "DIAMETER_AVP_UNSUPPORTED",
        INVALID_AVP_VALUE => "DIAMETER_INVALID_AVP_VALUE",
        MISSING_AVP => "DIAMETER_MISSING_AVP",
        AVP_NOT_ALLOWED => "DIAMETER_AVP_NOT_ALLOWED",
        AVP_OCCURS_TOO_MANY_TIMES => "DIAMETER_AVP_OCCURS_TOO_MANY_TIMES",
        INVALID_AVP_LENGTH => "DIAMETER_INVALID_AVP_LENGTH",
        _ => "Result-Code",
    }
}

/// The name of a Result-Code of a fault; the placeholder `Result-Code` for any other.
pub(crate) fn result_name_or_placeholder(code: u32) -> &'static str
    ensures { result.now ≡ result_name code }
{
    match code {
        COMMAND_UNSUPPORTED => "DIAMETER_COMMAND_UNSUPPORTED",
        INVALID_HDR_BITS => "DIAMETER_INVALID_HDR_BITS",
        _ => avp_result_name_or_placeholder(code),
    }
}

/// As `5005 DIAMETER_MISSING_AVP`.
impl fmt::Display for ResultName {
    ghost use Rattle.dm_view.specs.Results.{result_text};

    ghost output = { λ name. Some (result_text name.0) };

    fn fmt<W: fmt::Write>(&self, f: &mut fmt::Formatter<W>) -> fmt::Result {
        write!(f, "{} {}", self.0, result_name_or_placeholder(self.0))
    }
}
