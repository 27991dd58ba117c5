//! Nodes and whom they know.
use anyhow::Result;
use dm_dict::Ip;
use dm_node::{Config, Node, Open};
use std::alloc::Global;

/// What a.example says of itself, of the application 4.
fn own_side(alloc: Global) -> Result<dm_base::Node> {
    let host = Vec::from_slice(alloc, b"a.example")?;
    let realm = Vec::from_slice(alloc, b"example")?;
    let addresses = vec![in alloc; Ip::V4([127, 0, 0, 1])]?;
    let product = String::from_str(alloc, "example_server")?;
    let auth = vec![in alloc; 4]?;
    Ok(dm_base::Node::new(host, realm, addresses, 0, product, auth, Vec::new(alloc))?)
}

/// The configuration of which those for further hosts are made.
fn config_template(alloc: Global) -> Result<Config> {
    let host = Vec::from_slice(alloc, b"b.example")?;
    Ok(Config::new(alloc, own_side(alloc)?, host, 1)?)
}

/// A node of these neighbours.
pub fn node_of(alloc: Global, hosts: &[&[u8]]) -> Result<Node> {
    let template = config_template(alloc)?;
    let mut node = Node::new(alloc, own_side(alloc)?, 65_536, 1_048_576);
    for host in hosts {
        node.add(template.for_host(alloc, host)?)?;
    }
    Ok(node)
}

/// Takes in each host that calls, until there are ten neighbours.
pub fn strangers_up_to_ten(alloc: Global) -> Result<Open> {
    Ok(Open::new(config_template(alloc)?, 10))
}
