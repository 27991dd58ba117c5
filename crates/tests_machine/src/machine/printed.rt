//! States and orders as text.

use dm_machine::{Command, Conn, Core, Input, State, step};
use std::test::Fail;

#[test]
fn states_and_orders_are_printed(rt: HostRuntime) -> Result<(), Fail> {
    let (core, commands) = step(&Core::new(), Input::Start(Conn(7)), false)?;
    assert!(rt; core.state().to_string(rt.alloc())?.as_str() == "Wait-Conn-Ack");
    assert!(rt; State::WaitConnAckElect.to_string(rt.alloc())?.as_str() == "Wait-Conn-Ack/Elect");
    assert!(rt; commands[0].to_string(rt.alloc())?.as_str() == "connect 7");
    assert!(rt; Command::SendCer(Conn(7)).to_string(rt.alloc())?.as_str() == "send CER on 7");
    Ok(())
}
