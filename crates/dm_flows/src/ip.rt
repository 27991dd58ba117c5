//! IP packets of either version.
ghost use Rattle.std.specs.Prelude.{IfOk, IfErr};
ghost use Rattle.dm_flows.specs.Ips.{CarriesOctets, HasIpFault, carried_of};

use crate::carried::Carried;
use crate::ipv4::carried_by_ipv4;
use crate::ipv6::carried_by_ipv6;
use crate::network::{IpOctets, Network};
use crate::passed::Passed;

/// What an IP packet of either version carries, or why it gives nothing.
pub(crate) fn carried_by_ip(ip: IpOctets<'_>) -> Result<Carried<'_>, Passed>
    ensures carried { IfOk result (λ carried.
        CarriesOctets ip.entry.network ip.entry.octets.now (carried_of carried)) }
    ensures fault { IfErr result (HasIpFault ip.entry.network ip.entry.octets.now) }
{
    match ip.network {
        Network::Ipv4 => carried_by_ipv4(ip.octets),
        Network::Ipv6 => carried_by_ipv6(ip.octets),
    }
}
