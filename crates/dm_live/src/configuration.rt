//! The configuration, line by line, and the node and the config that it makes, or the name of why it makes none.
ghost use Rattle.std.specs.Prelude.{◌≡◌, ◌≢◌, true, false, Some, None, IfOk, IfErr, OnOk};
ghost use Rattle.dm_peer.specs.Hosts.{config_fault};
ghost use Rattle.dm_live.specs.Beginnings.{node_told_fault, go_fault, first_told, form_told};
ghost use Rattle.dm_live.specs.Beginnings.{IsNodeOf, IsConfiguredFor, config_fault_name};
ghost use Rattle.dm_live.specs.Drafts.{settings_of};
ghost use Rattle.dm_live.specs.Settings.{Settings, no_settings, Sets, TellsSetting};

use crate::form::Form;
use crate::setting_name::{SettingName, read_setting_name, read_vendor_application_name};
use crate::setting_words::{
    push_any_word_as_name, push_if_told, read_address, set_if_told, set_name_to_any_word, set_text,
};
use dm_base::{Extras, ExtrasFault, Node, NodeFault, VendorApplication};
use dm_peer::{Config, ConfigFault};
use dm_text::{Words, read_number};
use dm_value::Ip;
use dm_wire::Octets;
use dm_wire::codes::limits::MAX_MESSAGE_LEN;
use dm_words::{only_two_numbers_left, only_word_left};
use std::alloc::{AllocError, Global};

/// What the lines so far say.
#[derive(Drop)]
pub(crate) struct Draft {
    host: Vec<u8>,
    realm: Vec<u8>,
    addresses: Vec<Ip>,
    vendor: u32,
    product: String,
    auth: Vec<u32>,
    acct: Vec<u32>,
    applications: Vec<VendorApplication>,
    vendors: Vec<u32>,
    firmware: Option<u32>,
    state_id: Option<u32>,
    pub(crate) peers: Vec<Octets>,
    compare: u32,
    first_id: u32,
    pub(crate) first_max: u32,
    pub(crate) most: u32,
}

impl Draft {
    /// Nothing yet. It takes no memory.
    pub(crate) fn new(alloc: Global) -> Draft
        ensures { settings_of result ≡ no_settings }
    {
        Draft {
            host: Vec::new(alloc),
            realm: Vec::new(alloc),
            addresses: Vec::new(alloc),
            vendor: 0,
            product: String::new(alloc),
            auth: Vec::new(alloc),
            acct: Vec::new(alloc),
            applications: Vec::new(alloc),
            vendors: Vec::new(alloc),
            firmware: None,
            state_id: None,
            peers: Vec::new(alloc),
            compare: 0,
            first_id: 1,
            first_max: MAX_MESSAGE_LEN,
            most: MAX_MESSAGE_LEN,
        }
    }

    /// Goes on with a line. False where it tells nothing.
    #[tactic(auto, using(crate::proofs::Apart::no_setting))]
    pub(crate) fn take_line(&mut self, line: &[u8]) -> Result<bool, AllocError>
        ensures told { IfOk result (λ good. good ≡ true
            → TellsSetting line.now (settings_of self.old) (settings_of self.new)) }
        ensures bad { IfOk result (λ good. good ≡ false
            → (t : Settings) → TellsSetting line.now (settings_of self.old) t → ⊥) }
        ensures kept { IfOk result (λ good. good ≡ false → settings_of self.new ≡ settings_of self.old) }
    {
        let mut left = Words::new(line);
        let Some(word) = left.next() else {
            return Ok(false);
        };
        if let Some(accounting) = read_vendor_application_name(word) {
            let Some((vendor, application)) = only_two_numbers_left(&mut left) else {
                return Ok(false);
            };
            self.applications.push(VendorApplication {
                vendor,
                application,
                accounting,
            })?;
            return Ok(true);
        }
        match (read_setting_name(word), only_word_left(&mut left)) {
            (Some(name), Some(value)) => self.take_setting_value(name, value),
            _ => Ok(false),
        }
    }

    /// Goes on with what a word says behind a name. False where it says nothing.
    fn take_setting_value(&mut self, name: SettingName, word: &[u8]) -> Result<bool, AllocError>
        ensures told { IfOk result (λ good. good ≡ true
            → Sets name word.now (settings_of self.old) (settings_of self.new)) }
        ensures bad { IfOk result (λ good. good ≡ false
            → (t : Settings) → Sets name word.now (settings_of self.old) t → ⊥) }
        ensures kept { IfOk result (λ good. good ≡ false → settings_of self.new ≡ settings_of self.old) }
    {
        match name {
            SettingName::Host => set_name_to_any_word(&mut self.host, word),
            SettingName::Realm => set_name_to_any_word(&mut self.realm, word),
            SettingName::Address => push_if_told(&mut self.addresses, read_address(word)),
            SettingName::Vendor => Ok(set_if_told(&mut self.vendor, read_number(word))),
            SettingName::Product => set_text(&mut self.product, word),
            SettingName::Auth => push_if_told(&mut self.auth, read_number(word)),
            SettingName::Acct => push_if_told(&mut self.acct, read_number(word)),
            SettingName::Supports => push_if_told(&mut self.vendors, read_number(word)),
            SettingName::Firmware => Ok(set_if_told(
                &mut self.firmware,
                read_number(word).map(Some),
            )),
            SettingName::State => Ok(set_if_told(&mut self.state_id, read_number(word).map(Some))),
            SettingName::Peer => push_any_word_as_name(&mut self.peers, word),
            SettingName::Compare => Ok(set_if_told(&mut self.compare, read_number(word))),
            SettingName::First => Ok(set_if_told(&mut self.first_id, read_number(word))),
            SettingName::Early => Ok(set_if_told(&mut self.first_max, read_number(word))),
            SettingName::Max => Ok(set_if_told(&mut self.most, read_number(word))),
        }
    }

    /// The host of the first peer, an empty name where there is none.
    fn first_peer_host(&self) -> &[u8]
        ensures { result.now ≡ first_told (settings_of self.now).peers }
    {
        match self.peers.first() {
            Some(host) => host.as_slice(),
            None => &[],
        }
    }

    /// How many peers there are.
    pub(crate) fn form(&self) -> Form
        ensures { result ≡ form_told (settings_of self.now) }
    {
        if self.peers.len() > 1 {
            Form::Several
        } else {
            Form::Alone
        }
    }

    /// The configuration for the first peer, which compares the host that a CEA names with the peer's where the lines
    /// say so; or the name of why there is none.
    pub(crate) fn config_for_first_peer(
        &self,
        alloc: Global,
    ) -> Result<Result<Config, &'static str>, AllocError>
        ensures made { IfOk result (λ made. IfOk made (λ config.
            IsConfiguredFor (settings_of self.now) (first_told (settings_of self.now).peers) config)) }
        ensures good { IfOk result (λ made. OnOk made (node_told_fault (settings_of self.now) ≡ None)) }
        ensures peer { IfOk result (λ made. OnOk made (config_fault (settings_of self.now).host
            (first_told (settings_of self.now).peers) ≡ None)) }
        ensures fault { IfOk result (λ made. IfErr made (λ name. go_fault (settings_of self.now) ≡ Some name.now)) }
    {
        let node = match self.own_node(alloc)? {
            Ok(node) => node,
            Err(name) => return Ok(Err(name)),
        };
        let peer = Vec::from_slice(alloc, self.first_peer_host())?;
        match Config::new(alloc, node, peer, self.first_id) {
            Ok(config) if self.compare != 0 => Ok(Ok(config.comparing())),
            Ok(config) => Ok(Ok(config)),
            Err(fault) => Ok(Err(config_fault_name(fault)?)),
        }
    }

    /// The own node that the lines tell, with the extras that they say of it, if any, or the name of why there is none.
    fn own_node(&self, alloc: Global) -> Result<Result<Node, &'static str>, AllocError>
        ensures made { IfOk result (λ made. IfOk made (λ node. IsNodeOf (settings_of self.now) node)) }
        ensures good { IfOk result (λ made. OnOk made (node_told_fault (settings_of self.now) ≡ None)) }
        ensures fault { IfOk result (λ made. IfErr made (λ name.
            node_told_fault (settings_of self.now) ≡ Some name.now)) }
    {
        let host = Vec::from_slice(alloc, self.host.as_slice())?;
        let realm = Vec::from_slice(alloc, self.realm.as_slice())?;
        let addresses = Vec::from_slice(alloc, self.addresses.as_slice())?;
        let product = String::from_str(alloc, self.product.as_str())?;
        let auth = Vec::from_slice(alloc, self.auth.as_slice())?;
        let acct = Vec::from_slice(alloc, self.acct.as_slice())?;
        let node = match Node::new(host, realm, addresses, self.vendor, product, auth, acct) {
            Ok(node) => node,
            Err(NodeFault::BadHost) => return Ok(Err("BadHost")),
            Err(NodeFault::NoAddress) => return Ok(Err("NoAddress")),
            Err(NodeFault::TooLong) => return Ok(Err("TooLong")),
        };
        let says_extras = self.applications.len() != 0
            || self.vendors.len() != 0
            || self.firmware.is_some()
            || self.state_id.is_some();
        if !says_extras {
            return Ok(Ok(node));
        }
        let applications = Vec::from_slice(alloc, self.applications.as_slice())?;
        let vendors = Vec::from_slice(alloc, self.vendors.as_slice())?;
        match Extras::new(alloc, applications, vendors, self.firmware, self.state_id) {
            Ok(extras) => Ok(Ok(node.with_extras(extras))),
            Err(ExtrasFault::TooLong) => Ok(Err("TooLong")),
            Err(ExtrasFault::NoMemory) => Err(AllocError),
        }
    }
}

/// The name of why there is no configuration. Want of memory has none, and is answered as such.
pub(crate) fn config_fault_name(fault: ConfigFault) -> Result<&'static str, AllocError>
    ensures name { IfOk result (λ name. name.now ≡ config_fault_name fault) }
    ensures known { OnOk result (fault ≢ ConfigFault.NoMemory) }
{
    match fault {
        ConfigFault::BadHost => Ok("BadHost"),
        ConfigFault::SameHost => Ok("SameHost"),
        ConfigFault::NoMemory => Err(AllocError),
    }
}
