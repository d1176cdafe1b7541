//! A server, by the call that takes a copy of its event.

use crate::things::is_so;
use op_base::{Moment, NoMemory};
use srv_run::{Event, Server};
use std::alloc::Global;

/// Whether a tick of a new server is told to everyone, and the same tick once more is late.
fn ticks_once(alloc: Global) -> Result<bool, NoMemory> {
    let mut server = Server::new(alloc)?;
    let event = Event::Tick(Moment(5));
    let is_told = match server.event(&event) {
        Ok(reports) => reports.len() == 1,
        Err(_) => false,
    };
    Ok(is_told && server.event(&event).is_err())
}

#[test]
fn a_server_takes_a_tick_once(rt: HostRuntime) {
    assert!(rt; is_so(ticks_once(rt.alloc())));
}
