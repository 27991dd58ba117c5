//! Nodes: what each says of itself, and why there is none of some parts (RFC 6733, 5.3).
ghost use Rattle.std.specs.Prelude.{◌≡◌, true, None, Some, IfOk, string_bytes};
ghost use Rattle.std.specs.Result.{result_err};
ghost use Rattle.dm_base.specs.Refusals.{node_fault};
ghost use Rattle.dm_base.specs.Fit.{is_name, are_addresses, is_number, is_product, are_ids};

use crate::limits::{MAX_ADDRESSES, MAX_IDS, MAX_NAME_LEN};
use crate::names::is_nonempty_visible_text;
use crate::private_laws::{addresses_have_their_sizes, ids_fit_32_bits, text_is_utf8};
use crate::{Extras, IdList, IpList, NodeFault};
use dm_dict::{Ip, Text};
use dm_wire::Octets;
use std::alloc::AllocError;

/// What a node says of itself (RFC 6733, 5.3).
#[derive(Debug, Drop)]
pub struct Node {
    pub(crate) host: Octets,
    pub(crate) realm: Octets,
    pub(crate) addresses: IpList,
    pub(crate) vendor: u32,
    pub(crate) product: Text,
    pub(crate) auth: IdList,
    pub(crate) acct: IdList,
    pub(crate) extras: Option<Extras>,
    pub ghost fit_host: { is_name host ≡ true },
    pub ghost fit_realm: { is_name realm ≡ true },
    pub ghost fit_addresses: { are_addresses addresses ≡ true },
    pub ghost fit_vendor: { is_number vendor ≡ true },
    pub ghost fit_product: { is_product product ≡ true },
    pub ghost fit_auth: { are_ids auth ≡ true },
    pub ghost fit_acct: { are_ids acct ≡ true },
}

/// Why there is no node of these parts; None where there is one.
fn fault_of_node_parts(
    host: &[u8],
    realm: &[u8],
    addresses: &[Ip],
    product: &str,
    auth: &[u32],
    acct: &[u32],
) -> Option<NodeFault>
    ensures { result ≡ node_fault host.now realm.now addresses.now product.now auth.now acct.now }
{
    if !(is_nonempty_visible_text(host) && is_nonempty_visible_text(realm)) {
        return Some(NodeFault::BadHost);
    }
    if addresses.len() == 0 {
        return Some(NodeFault::NoAddress);
    }
    if host.len() > MAX_NAME_LEN
        || realm.len() > MAX_NAME_LEN
        || product.len() > MAX_NAME_LEN
        || addresses.len() > MAX_ADDRESSES
        || auth.len() > MAX_IDS
        || acct.len() > MAX_IDS
    {
        return Some(NodeFault::TooLong);
    }
    None
}

impl Node {
    /// A node of these parts, which are moved and not copied (RFC 6733, 4.3.1 and 5.3; the limits are own). It never
    /// answers want of memory.
    ///
    /// Refuses, in this order, with `BadHost` (the host, then the realm, is empty or has an octet outside 0x21 to
    /// 0x7E),
    /// `NoAddress`, and `TooLong` (the host, the realm or the product is over 255 octets, or there are over 64
    /// addresses, over 256 auth ids or over 256 acct ids), and drops the parts then.
    pub fn new(
        host: Vec<u8>,
        realm: Vec<u8>,
        addresses: Vec<Ip>,
        vendor: u32,
        product: String,
        auth: Vec<u32>,
        acct: Vec<u32>,
    ) -> Result<Node, NodeFault>
        ensures fault { result_err result
            ≡ node_fault host.items realm.items addresses.items (string_bytes product) auth.items acct.items }
        ensures host { IfOk result (λ node. node.host ≡ host.items) }
        ensures realm { IfOk result (λ node. node.realm ≡ realm.items) }
        ensures addresses { IfOk result (λ node. node.addresses ≡ addresses.items) }
        ensures vendor { IfOk result (λ node. node.vendor ≡ vendor) }
        ensures product { IfOk result (λ node. node.product ≡ string_bytes product) }
        ensures auth { IfOk result (λ node. node.auth ≡ auth.items) }
        ensures acct { IfOk result (λ node. node.acct ≡ acct.items) }
        // It says nothing beyond.
        ensures extras { IfOk result (λ node. node.extras ≡ None) }
    {
        let product = Text::from_string(product);
        match fault_of_node_parts(
            host.as_slice(),
            realm.as_slice(),
            addresses.as_slice(),
            product.as_str(),
            auth.as_slice(),
            acct.as_slice(),
        ) {
            Some(fault) => Err(fault),
            None => {
                addresses_have_their_sizes(addresses.as_slice());
                ids_fit_32_bits(auth.as_slice());
                ids_fit_32_bits(acct.as_slice());
                text_is_utf8(&product);
                Ok(Node {
                    host: Octets::from_vec(host),
                    realm: Octets::from_vec(realm),
                    addresses: IpList::from_vec(addresses),
                    vendor,
                    product,
                    auth: IdList::from_vec(auth),
                    acct: IdList::from_vec(acct),
                    extras: None,
                })
            }
        }
    }

    /// The node, which says this too, in place of what it said beyond before (RFC 6733, 5.3, 6.11 and 8.16): the
    /// messages that it builds carry it where the commands have it, and its applications of vendors are applications in
    /// common. The extras are moved and not copied. It never answers want of memory.
    pub fn with_extras(self, extras: Extras) -> Node
        ensures host { result.host ≡ self.host }
        ensures realm { result.realm ≡ self.realm }
        ensures addresses { result.addresses ≡ self.addresses }
        ensures vendor { result.vendor ≡ self.vendor }
        ensures product { result.product ≡ self.product }
        ensures auth { result.auth ≡ self.auth }
        ensures acct { result.acct ≡ self.acct }
        ensures extras { result.extras ≡ Some extras }
    {
        let mut node = self;
        node.extras = Some(extras);
        node
    }

    /// The host. It never answers want of memory.
    pub fn host(&self) -> &[u8]
        ensures { result.now ≡ self.now.host }
    {
        self.host.as_slice()
    }
}

/// A copy of what a node says beyond what it must, where it says it.
fn copy_extras(extras: &Option<Extras>) -> Result<Option<Extras>, AllocError>
    ensures { IfOk result (λ copy. copy ≡ extras.now) }
{
    match extras {
        Some(extras) => Ok(Some(extras.clone()?)),
        None => Ok(None),
    }
}

/// A copy, or want of memory.
impl Clone for Node {
    ghost is_clone = { λ node copy. copy ≡ node };

    fn clone(&self) -> Result<Node, AllocError> {
        Ok(Node {
            host: self.host.clone()?,
            realm: self.realm.clone()?,
            addresses: self.addresses.clone()?,
            vendor: self.vendor,
            product: self.product.clone()?,
            auth: self.auth.clone()?,
            acct: self.acct.clone()?,
            extras: copy_extras(&self.extras)?,
        })
    }
}
