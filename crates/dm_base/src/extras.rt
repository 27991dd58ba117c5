//! What a node says of itself beyond what it must.
ghost use Rattle.std.specs.Prelude.{◌≡◌, ◌⊎◌, ◌↔◌, true, IfOk, IfErr, IsErrOf};
ghost use Rattle.dm_base.specs.Fit.{are_ids, are_vendor_applications, is_optional_number};
ghost use Rattle.dm_base.specs.Specific.{ids_of};
ghost use Rattle.dm_base.specs.Refusals.{are_extras_long};
ghost use Rattle.dm_base.specs.declared.extras_fault.ExtrasFault.{ExtrasFault};

use crate::limits::MAX_IDS;
use crate::private_laws::{
    all_application_numbers_fit_32_bits, ids_fit_32_bits, optional_number_fits_32_bits,
};
use crate::vendor_application::ids_of_applications;
use crate::{ExtrasFault, IdList, VendorApplication, VendorApplicationList};
use std::alloc::{AllocError, Global};

/// What a node says of itself beyond what it must (RFC 6733, 5.3, 6.11 and 8.16).
#[derive(Debug, Drop)]
pub struct Extras {
    pub(crate) applications: VendorApplicationList,
    pub(crate) ids: IdList,
    pub(crate) vendors: IdList,
    pub(crate) firmware: Option<u32>,
    pub(crate) state_id: Option<u32>,
    pub ghost fit_applications: { are_vendor_applications applications ≡ true },
    pub ghost told_ids: { ids ≡ ids_of applications },
    pub ghost fit_vendors: { are_ids vendors ≡ true },
    pub ghost fit_firmware: { is_optional_number firmware ≡ true },
    pub ghost fit_state_id: { is_optional_number state_id ≡ true },
}

impl Extras {
    /// What a node says beyond what it must (RFC 6733, 5.3, 6.11 and 8.16): the applications of vendors, each in a
    /// Vendor-Specific-Application-Id, the Supported-Vendor-Ids, and Firmware-Revision and Origin-State-Id where there
    /// are numbers for them. The lists are moved and not copied.
    ///
    /// Refuses with `TooLong` where there are over 256 applications or over 256 vendors, else with `NoMemory`.
    pub fn new(
        alloc: Global,
        applications: Vec<VendorApplication>,
        vendors: Vec<u32>,
        firmware: Option<u32>,
        state_id: Option<u32>,
    ) -> Result<Extras, ExtrasFault>
        ensures long { IsErrOf result ExtrasFault.TooLong
            ↔ (are_extras_long applications.items vendors.items ≡ true) }
        ensures fault { IfErr result (λ fault. (fault ≡ ExtrasFault.TooLong) ⊎ (fault ≡ ExtrasFault.NoMemory)) }
        ensures applications { IfOk result (λ extras. extras.applications ≡ applications.items) }
        ensures vendors { IfOk result (λ extras. extras.vendors ≡ vendors.items) }
        ensures firmware { IfOk result (λ extras. extras.firmware ≡ firmware) }
        ensures state_id { IfOk result (λ extras. extras.state_id ≡ state_id) }
    {
        if applications.len() > MAX_IDS || vendors.len() > MAX_IDS {
            return Err(ExtrasFault::TooLong);
        }
        let ids = ids_of_applications(alloc, applications.as_slice())?;
        all_application_numbers_fit_32_bits(applications.as_slice());
        ids_fit_32_bits(vendors.as_slice());
        optional_number_fits_32_bits(firmware);
        optional_number_fits_32_bits(state_id);
        Ok(Extras {
            applications: VendorApplicationList::from_vec(applications),
            ids: IdList::from_vec(ids),
            vendors: IdList::from_vec(vendors),
            firmware,
            state_id,
        })
    }
}

/// A copy, or want of memory.
impl Clone for Extras {
    ghost is_clone = { λ extras copy. copy ≡ extras };

    fn clone(&self) -> Result<Extras, AllocError> {
        Ok(Extras {
            applications: self.applications.clone()?,
            ids: self.ids.clone()?,
            vendors: self.vendors.clone()?,
            firmware: self.firmware,
            state_id: self.state_id,
        })
    }
}
