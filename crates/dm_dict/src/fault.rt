//! A fault of a message, where it lies (RFC 6733, 7).
ghost use Rattle.std.specs.Prelude.{◌≡◌, false};
ghost use Rattle.dm_dict.specs.Found.{is_missing_found};

use crate::judged::Failed;

/// A fault of a message (RFC 6733, 7), where it lies.
#[derive(Clone, Copy, Debug)]
pub struct Fault<'a> {
    /// The Result-Code (7.1).
    pub code: u32,
    /// The failed AVP (7.5).
    pub failed: Failed<'a>,
    // For an AVP that is missing (5005) none of the message is told.
    pub ghost missing: { is_missing_found code failed ≡ false },
}
