//! What happens in the world where a host does what a line says.

ghost use Rattle.std.specs.Prelude.{◌≡◌, IfOk};
ghost use Rattle.script.specs.Events.{IsEventOf, endpoint_of};
ghost use Rattle.sides.specs.Sides.{other_side};

use crate::action::Action;
use host::SocketId;
use ipv4::Endpoint;
use std::alloc::{AllocError, Global};
use wire_sim::{Call, Event, Side, address};

/// What happens in the world where a host does `action`.
pub fn event(alloc: Global, side: Side, action: &Action<'_>) -> Result<Event, AllocError>
    ensures { IfOk result (IsEventOf side action.now) }
{
    match action {
        Action::Tick(moment) => Ok(Event::Tick(side, *moment)),
        Action::Emit => Ok(Event::Emit(side)),
        Action::Deliver { index, isn } => Ok(Event::Deliver(side, *index, *isn)),
        Action::Socket(kind) => Ok(Event::Call(side, Call::Socket(*kind))),
        Action::Bind { id, port } => {
            let local = endpoint(side, *port);
            Ok(Event::Call(side, Call::Bind { id: *id, local }))
        }
        Action::Listen { id, backlog } => {
            let backlog = *backlog;
            Ok(Event::Call(side, Call::Listen { id: *id, backlog }))
        }
        Action::Accept { id } => Ok(Event::Call(side, Call::Accept { id: *id })),
        Action::Connect { id, port, isn } => {
            let peer = endpoint(side.other(), *port);
            Ok(Event::Call(
                side,
                Call::Connect {
                    isn: *isn,
                    id: *id,
                    peer,
                },
            ))
        }
        Action::Send { id, text } => {
            let octets = Vec::from_slice(alloc, text.octets())?;
            Ok(Event::Call(side, Call::Send { id: *id, octets }))
        }
        Action::Fill { id, count } => {
            let octets = vec![in alloc; b'x'; *count]?;
            Ok(Event::Call(side, Call::Send { id: *id, octets }))
        }
        Action::Recv { id, most } => Ok(Event::Call(
            side,
            Call::Recv {
                id: *id,
                len: *most,
            },
        )),
        Action::Count { id, most } => Ok(Event::Call(
            side,
            Call::Recv {
                id: *id,
                len: *most,
            },
        )),
        Action::SendTo { id, port, text } => {
            let octets = Vec::from_slice(alloc, text.octets())?;
            Ok(datagram(side, *id, *port, octets))
        }
        Action::FillTo { id, port, count } => {
            let octets = vec![in alloc; b'x'; *count]?;
            Ok(datagram(side, *id, *port, octets))
        }
        Action::RecvFrom { id, most } => Ok(Event::Call(
            side,
            Call::RecvFrom {
                id: *id,
                len: *most,
            },
        )),
        Action::CountFrom { id, most } => Ok(Event::Call(
            side,
            Call::RecvFrom {
                id: *id,
                len: *most,
            },
        )),
        Action::Shutdown { id } => Ok(Event::Call(side, Call::Shutdown { id: *id })),
        Action::NoDelay { id, on } => {
            let (id, on) = (*id, *on);
            Ok(Event::Call(side, Call::SetNoDelay { id, on }))
        }
        Action::Close { id } => Ok(Event::Call(side, Call::Close { id: *id })),
        Action::Abort { id } => Ok(Event::Call(side, Call::Abort { id: *id })),
        Action::State { id } => Ok(Event::Call(side, Call::State { id: *id })),
        Action::Ready { id } => Ok(Event::Call(side, Call::Ready { id: *id })),
        Action::Info { id } => Ok(Event::Call(side, Call::Info { id: *id })),
    }
}

/// Octets are given as a datagram for a port of the other host.
fn datagram(side: Side, id: SocketId, port: u16, octets: Vec<u8>) -> Event
    ensures { result ≡ Event.Call side (Call.SendTo id (endpoint_of (other_side side) port) octets) }
{
    let peer = endpoint(side.other(), port);
    Event::Call(side, Call::SendTo { id, peer, octets })
}

fn endpoint(side: Side, port: u16) -> Endpoint
    ensures { result ≡ endpoint_of side port }
{
    Endpoint {
        addr: address(side),
        port,
    }
}
