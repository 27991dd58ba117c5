//! The first words of configuration lines.
ghost use Rattle.std.specs.Prelude.{◌≡◌, Bool, IfSome, IfNone};
ghost use Rattle.dm_live.specs.declared.setting_name.SettingName.{SettingName};
ghost use Rattle.dm_live.specs.Settings.{setting_word, specific_word};

/// What a line of the configuration is about.
#[derive(Clone, Copy, Drop)]
pub enum SettingName {
    Host,
    Realm,
    Address,
    Vendor,
    Product,
    Auth,
    Acct,
    Supports,
    Firmware,
    State,
    Peer,
    Compare,
    First,
    Early,
    Max,
}

/// The setting that a word names; None where it names none.
pub(crate) fn read_setting_name(word: &[u8]) -> Option<SettingName>
    ensures told { IfSome result (λ name. word.now ≡ setting_word name) }
    ensures none { IfNone result ((name : SettingName) → word.now ≡ setting_word name → ⊥) }
{
    match word {
        b"host" => Some(SettingName::Host),
        b"realm" => Some(SettingName::Realm),
        b"address" => Some(SettingName::Address),
        b"vendor" => Some(SettingName::Vendor),
        b"product" => Some(SettingName::Product),
        b"auth" => Some(SettingName::Auth),
        b"acct" => Some(SettingName::Acct),
        b"supports" => Some(SettingName::Supports),
        b"firmware" => Some(SettingName::Firmware),
        b"state" => Some(SettingName::State),
        b"peer" => Some(SettingName::Peer),
        b"compare" => Some(SettingName::Compare),
        b"first" => Some(SettingName::First),
        b"early" => Some(SettingName::Early),
        b"max" => Some(SettingName::Max),
        _ => None,
    }
}

/// True where the word says that an accounting application of a vendor follows, false where another application of a
/// vendor; None for any other word.
pub(crate) fn read_vendor_application_name(word: &[u8]) -> Option<bool>
    ensures told { IfSome result (λ accounting. word.now ≡ specific_word accounting) }
    ensures none { IfNone result ((accounting : Bool) → word.now ≡ specific_word accounting → ⊥) }
{
    if word == b"vendor-auth".as_slice() {
        Some(false)
    } else if word == b"vendor-acct".as_slice() {
        Some(true)
    } else {
        None
    }
}
