//! Memory that is taken before a host is touched.

ghost use Rattle.std.specs.Prelude.{◌≡◌, ◌≤◌, true, false, length, vec_len, vec_capacity, IsOk, IfOk};

use crate::event::{Call, Event};
use ether::FRAME_MAX;
use std::alloc::{AllocError, Global};
use tcp_halves::LARGEST_CAPACITY;

/// The memory that an event may need beside the world's own lists.
#[derive(Drop)]
pub(crate) struct Room {
    /// What the host reads octets into, or room for the frame that it emits.
    pub(crate) octets: Vec<u8>,
    /// Room for a second copy of the octets that are read.
    pub(crate) copy: Vec<u8>,
    ghost empty: { vec_len copy ≡ 0 },
    ghost enough: { vec_len octets ≤ vec_capacity copy },
}

impl Room {
    ghost use Rattle.wire_sim.specs.Steps.{event_recv_len, is_emission};

    /// What `event` needs. An event that neither reads octets nor emits a frame needs nothing, and so is refused nothing.
    pub(crate) fn for_event(alloc: Global, event: &Event) -> Result<Room, AllocError>
        ensures read { IfOk result (λ room. vec_len room.octets ≡ event_recv_len event.now) }
        ensures room { IfOk result (λ room. is_emission event.now ≡ true → FRAME_MAX ≤ vec_capacity room.octets) }
        ensures plain { event_recv_len event.now ≡ 0 → is_emission event.now ≡ false → IsOk result }
    {
        match event {
            Event::Call(_, Call::Recv { len, .. } | Call::RecvFrom { len, .. }) => {
                let len = (*len).min(LARGEST_CAPACITY);
                let mut octets = Vec::with_capacity(alloc, len)?;
                octets.resize(len, 0)?;
                let copy = Vec::with_capacity(alloc, len)?;
                Ok(Room { octets, copy })
            }
            Event::Emit(_) => Ok(Room {
                octets: Vec::with_capacity(alloc, FRAME_MAX)?,
                copy: Vec::new(alloc),
            }),
            _ => Ok(Room {
                octets: Vec::new(alloc),
                copy: Vec::new(alloc),
            }),
        }
    }
}

/// These octets, in room that holds nothing yet and is large enough.
pub(crate) fn filled(mut room: Vec<u8>, octets: &[u8]) -> Vec<u8>
    requires empty { vec_len room ≡ 0 }
    requires fits { length octets.now ≤ vec_capacity room }
    ensures { result.items ≡ octets.now }
{
    let _ = room.extend_from_slice(octets);
    room
}
