//! The words behind the names of configuration lines. Each helper answers false, and changes nothing, where nothing is
//! told.
ghost use Rattle.std.specs.Prelude.{◌≡◌, ◌∷◌, ◌++◌, [], true, false, IfOk, IfSome, IfNone};
ghost use Rattle.std.specs.Str.{IsUtf8};
ghost use Rattle.std.specs.String.{string_bytes};
ghost use Rattle.dm_value.specs.declared.address.Ip.{Ip as AnIp};
ghost use Rattle.dm_live.specs.Settings.{TellsAddress};

use dm_value::Ip;
use dm_wire::Octets;
use std::alloc::AllocError;
use std::net::IpAddr;
use std::str;

/// Takes the word as the name, in place of the one said before. Any word is one, so it answers true.
pub(crate) fn set_name_to_any_word(name: &mut Vec<u8>, word: &[u8]) -> Result<bool, AllocError>
    ensures { IfOk result (λ good. (good ≡ true) × (name.new.items ≡ word.now)) }
{
    name.clear();
    name.extend_from_slice(word)?;
    Ok(true)
}

/// Puts the word as a name behind those said before. Any word is one, so it answers true.
pub(crate) fn push_any_word_as_name(list: &mut Vec<Octets>, word: &[u8]) -> Result<bool, AllocError>
    ensures { IfOk result (λ good. (good ≡ true) × (list.new.items ≡ list.old.items ++ word.now ∷ [])) }
{
    let name = Octets::from_slice(*list.allocator(), word)?;
    list.push(name)?;
    Ok(true)
}

/// Takes the word as the text, in place of the one said before; false where it is no UTF-8.
pub(crate) fn set_text(text: &mut String, word: &[u8]) -> Result<bool, AllocError>
    ensures put { IfOk result (λ good. good ≡ true → IsUtf8 word.now × (string_bytes text.new ≡ word.now)) }
    ensures bad { IfOk result (λ good. good ≡ false → IsUtf8 word.now → ⊥) }
    ensures kept { IfOk result (λ good. good ≡ false → string_bytes text.new ≡ string_bytes text.old) }
{
    let Ok(words) = str::from_utf8(word) else {
        return Ok(false);
    };
    text.clear();
    text.push_str(words)?;
    Ok(true)
}

/// The address that a word tells; None where it tells none.
#[tactic(auto, unfolding(crate::specs::Settings::TellsAddress))]
pub(crate) fn read_address(word: &[u8]) -> Option<Ip>
    ensures told { IfSome result (λ ip. TellsAddress ip word.now) }
    ensures none { IfNone result ((ip : AnIp) → TellsAddress ip word.now → ⊥) }
{
    Some(Ip::from(IpAddr::parse_ascii(word).ok()?))
}

/// Takes what is told in place of what was said before; false where nothing is told.
pub(crate) fn set_if_told<T: Copy>(place: &mut T, told: Option<T>) -> bool
    ensures put { IfSome told (λ value. (result ≡ true) × (place.new ≡ value)) }
    ensures kept { IfNone told ((result ≡ false) × (place.new ≡ place.old)) }
{
    let Some(value) = told else {
        return false;
    };
    *place = value;
    true
}

/// Puts what is told behind what was said before; false where nothing is told.
pub(crate) fn push_if_told<T: Copy>(list: &mut Vec<T>, told: Option<T>) -> Result<bool, AllocError>
    ensures put { IfSome told (λ value. IfOk result (λ good. (good ≡ true)
        × (list.new.items ≡ list.old.items ++ value ∷ []))) }
    ensures kept { IfNone told (IfOk result (λ good. (good ≡ false) × (list.new.items ≡ list.old.items))) }
{
    let Some(value) = told else {
        return Ok(false);
    };
    list.push(value)?;
    Ok(true)
}
