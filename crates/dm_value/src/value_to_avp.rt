//! A value as the data of an AVP, and copies of values.
ghost use Rattle.std.specs.Prelude.{◌≡◌, ◌≢◌, ◌↔◌, false, IfOk, Err, IsErrOf, List};
ghost use Rattle.dm_wire.specs.declared.avp.Avp.{Avp};
ghost use Rattle.dm_wire.specs.Canonical.{canonical_list};
ghost use Rattle.dm_value.specs.Meaning.{Means, type_of, HasNoOctets, HasLongMember};
ghost use Rattle.dm_value.specs.declared.value.Value.{Value};

use crate::{Value, ValueFault, write_value};
use dm_wire::{Avp, Octets};
use std::alloc::{AllocError, Global};

impl Value {
    /// An AVP of this code, vendor and M bit with the value as its data, without the P bit; or the refusals of
    /// `write_value` (RFC 6733, 4.1).
    pub fn to_avp(
        &self,
        alloc: Global,
        code: u32,
        vendor: Option<u32>,
        mandatory: bool,
    ) -> Result<Avp, ValueFault>
        ensures code { IfOk result (λ avp. avp.code ≡ code) }
        ensures vendor { IfOk result (λ avp. avp.vendor ≡ vendor) }
        ensures mandatory { IfOk result (λ avp. avp.mandatory ≡ mandatory) }
        ensures protected { IfOk result (λ avp. avp.protected ≡ false) }
        // The data means the value, and no other.
        ensures data { IfOk result (λ avp. Means (type_of self.now) avp.bytes self.now) }
        ensures one { IfOk result (λ avp. (read : Value) → Means (type_of self.now) avp.bytes read → read ≡ self.now) }
        ensures group { (avps : List Avp) → self.now ≡ Value.Group avps
            → IfOk result (λ avp. avp.bytes ≡ canonical_list avps) }
        ensures long { IsErrOf result ValueFault.TooLong ↔ HasLongMember self.now }
        ensures value { IsErrOf result ValueFault.WrongValue
            ↔ (HasNoOctets self.now × (HasLongMember self.now → ⊥)) }
        ensures length { result ≢ Err ValueFault.WrongLength }
    {
        match write_value(alloc, self) {
            Ok(octets) => Ok(Avp::new(code, vendor, mandatory, Octets::from_vec(octets))),
            Err(fault) => Err(fault),
        }
    }
}

/// A copy, or want of memory.
impl Clone for Value {
    ghost is_clone = { λ value copy. copy ≡ value };

    fn clone(&self) -> Result<Value, AllocError> {
        Ok(match self {
            Value::Bytes(octets) => Value::Bytes(octets.clone()?),
            Value::Int32(number) => Value::Int32(*number),
            Value::Int64(number) => Value::Int64(*number),
            Value::Uint32(number) => Value::Uint32(*number),
            Value::Uint64(number) => Value::Uint64(*number),
            Value::Addr(address) => Value::Addr(address.clone()?),
            Value::Time(seconds) => Value::Time(*seconds),
            Value::Text(text) => Value::Text(text.clone()?),
            Value::Identity(name) => Value::Identity(name.clone()?),
            Value::Uri(uri) => Value::Uri(uri.clone()?),
            Value::Enumerated(number) => Value::Enumerated(*number),
            Value::Group(avps) => Value::Group(avps.clone()?),
        })
    }
}
