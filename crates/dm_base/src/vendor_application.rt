//! Applications of vendors, and their ids.
ghost use Rattle.std.specs.Prelude.{◌≡◌, IfOk};
ghost use Rattle.dm_base.specs.Specific.{ids_of};

use dm_dict::NoMemory;
use dm_wire::Listed;
use std::alloc::Global;

/// An application of a vendor: what a Vendor-Specific-Application-Id says (RFC 6733, 6.11).
#[derive(Clone, Copy, Debug, PartialEq, Eq)]
pub struct VendorApplication {
    /// Vendor-Id.
    pub vendor: u32,
    /// The id of the application.
    pub application: u32,
    /// Whether the id is told by an Acct-Application-Id, and not by an Auth-Application-Id.
    pub accounting: bool,
}

/// Applications of vendors, in order.
pub type VendorApplicationList = Listed<VendorApplication>;

/// The ids of applications of vendors, in order.
pub(crate) fn ids_of_applications(
    alloc: Global,
    applications: &[VendorApplication],
) -> Result<Vec<u32>, NoMemory>
    ensures { IfOk result (λ ids. ids.items ≡ ids_of applications.now) }
{
    let mut ids = Vec::with_capacity(alloc, applications.len())?;
    for application in applications {
        ids.push(application.application)?;
    }
    Ok(ids)
}
