//! Laws of what octets of a type mean. Each function is a law: it does nothing but call the laws that it
//! stands on, and its contract is the law.
ghost use Rattle.dm_value.specs.Decided.{FlawDecides, ValueOrFault};
ghost use Rattle.dm_value.specs.OneValue.{OneValue, OneType, NoValueRefused, EachLeastLength};
ghost use Rattle.dm_value.specs.ValueIn.{ValueMeant};

use dm_wire::laws::{
    members_are_what_octets_spell, octets_spell_one_avp_list_at_most, spelled_avps_are_members,
};

/// Octets of a type have at most one value (RFC 6733, 4.2 to 4.4).
pub fn octets_have_one_value_at_most()
    ensures { OneValue }
{
    octets_spell_one_avp_list_at_most();
}

/// A value is of one type.
pub fn each_value_is_of_one_type()
    ensures { OneType }
{}

/// Octets that have a value have no wrong length and no wrong value.
pub fn octets_of_values_have_no_fault()
    ensures { NoValueRefused }
{}

/// No octets below the least length of their type have a value, and some of that length do.
pub fn shortest_values_have_the_least_length()
    ensures { EachLeastLength }
{}

/// What `flaw` answers for octets of a type is their fault, or that they have a value (7.1.5).
pub fn flaw_decides_fault_or_value()
    ensures { FlawDecides }
{
    members_are_what_octets_spell();
}

/// Octets of a type have a value or a fault. It stands for users.
pub fn octets_have_a_value_or_a_fault()
    ensures { ValueOrFault }
{
    flaw_decides_fault_or_value();
}

/// The value that octets of a type mean is `value_in` of them: what reads it answers that, and what shows it shows
/// that.
pub fn value_in_is_what_octets_mean()
    ensures { ValueMeant }
{
    spelled_avps_are_members();
}
