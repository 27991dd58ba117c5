//! Laws for this crate alone: spelled AVPs are members, numbers fit 32 bits, addresses have the octets of their
//! families, and texts are UTF-8. Each function is a law: it does nothing but call the laws that it stands on, and its
//! contract is the law.
ghost use Rattle.std.specs.Prelude.{◌≡◌, List, Some, true, length};
ghost use Rattle.std.specs.List.{list_all};
ghost use Rattle.std.specs.Str.{is_utf8};
ghost use Rattle.dm_wire.specs.declared.avp.Avp.{Avp};
ghost use Rattle.dm_wire.specs.Members.{members};
ghost use Rattle.dm_wire.specs.Spelling.{SpellsList};
ghost use Rattle.dm_base.specs.Fit.{is_sized, is_number, is_vendor_application, is_optional_number};

use crate::VendorApplication;
use dm_dict::{Ip, Text};
use dm_wire::laws::members_are_what_octets_spell;

/// The octets that spell AVPs have them as their members: `dm_wire::laws::members_are_what_octets_spell`, of these
/// octets.
pub(crate) fn members_are_what_these_octets_spell(octets: &[u8])
    ensures { (l : List Avp) → SpellsList l octets.now → members octets.now ≡ Some l }
{
    members_are_what_octets_spell();
}

/// The numbers of an application fit 32 bits, as their types say.
#[tactic(auto, using(crate::proofs::Fitting::application_numbers))]
fn application_numbers_fit_32_bits(application: &VendorApplication)
    ensures { is_vendor_application application.now ≡ true }
{
    let _vendor = application.vendor;
    let _application = application.application;
}

/// The numbers of all applications fit 32 bits, as their types say.
pub(crate) fn all_application_numbers_fit_32_bits(applications: &[VendorApplication])
    ensures { list_all is_vendor_application applications.now ≡ true }
{
    for application in applications {
        application_numbers_fit_32_bits(application);
    }
}

/// A number that there may be fits 32 bits, as its type says.
#[tactic(auto, using(crate::proofs::Fitting::optional_number))]
pub(crate) fn optional_number_fits_32_bits(number: Option<u32>)
    ensures { is_optional_number number ≡ true }
{}

/// An IPv4 address has four octets, as its type says.
fn ipv4_has_four_octets(address: &[u8; 4])
    ensures { length address.now ≡ 4 }
{}

/// An IPv6 address has sixteen octets, as its type says.
fn ipv6_has_sixteen_octets(address: &[u8; 16])
    ensures { length address.now ≡ 16 }
{}

/// The address has the octets of its family, as its type says.
fn address_has_its_size(ip: &Ip)
    ensures { is_sized ip.now ≡ true }
{
    match ip {
        Ip::V4(address) => ipv4_has_four_octets(address),
        Ip::V6(address) => ipv6_has_sixteen_octets(address),
    }
}

/// All addresses have the octets of their families, as their types say.
pub(crate) fn addresses_have_their_sizes(addresses: &[Ip])
    ensures { list_all is_sized addresses.now ≡ true }
{
    for ip in addresses {
        address_has_its_size(ip);
    }
}

/// The ids fit 32 bits, as their type says.
#[tactic(auto, using(crate::proofs::Fitting::all_numbers))]
pub(crate) fn ids_fit_32_bits(ids: &[u32])
    ensures { list_all is_number ids.now ≡ true }
{}

/// The text is UTF-8, as its type says.
#[tactic(auto, using(crate::proofs::Fitting::is_text))]
pub(crate) fn text_is_utf8(text: &Text)
    ensures { is_utf8 text.now ≡ true }
{
    let _text = text.as_str();
}
