//! The memory of a connection: one buffer for each direction.

ghost use Rattle.std.specs.Prelude.{◌≡◌, ◌≤◌, IfOk};
ghost use Rattle.stream_buf.specs.Receiving.{IsReceiving};
ghost use Rattle.tcp_segment.specs.declared.TheConstants.{MSS};
ghost use Rattle.tcp_halves.specs.declared.buffers.TheConstants.{LARGEST_CAPACITY};
ghost use Rattle.tcp_halves.specs.Halves.{Room};
ghost use Rattle.tcp_halves.specs.Stream.{size_in, own_unit, size_of, sending_from, receiving_nothing, buffer_of, ReceivingFits, KeptInWindow};

use crate::receiver::Receiver;
use crate::sender::Sender;
use congestion::Control;
use std::alloc::{AllocError, Global};
use std::marker::Model;
use stream_buf::{RecvBuf, SendBuf};
use tcp_segment::{SHIFT, Seq};

/// The octets of each of a connection's two buffers, where a window is told as it is: in 16 bits (RFC 9293 section 3.1).
pub const CAPACITY: usize = 65_535;

/// No buffer has more octets: the largest window that this stack tells where it may scale it (RFC 7323 section 2).
pub const LARGEST_CAPACITY: usize = 1_048_576;

/// How the connections of a host behave where a rule leaves it to them, by the host's set-up.
#[derive(Clone, Copy, Debug, PartialEq, Eq)]
pub struct Manner {
    /// Whether windows are scaled where the peer does it too (RFC 7323 section 2).
    pub scales: bool,
    /// Whether a small segment waits for a small one only, and the FIN goes with the last octets (Minshall, RFC 9293 appendix A.3).
    pub minshall: bool,
    /// How the congestion window begins, and how losses are repaired (RFC 5681, RFC 6582).
    pub control: Control,
    /// The least retransmission timeout, in milliseconds: 200 at least and a second at most (RFC 6298 section 2.4).
    pub least_timeout: u16,
    /// Whether the host is on its guard: against senders that are no host (RFC 1122 section 3.2.1.3).
    pub guards: bool,
}

/// The empty buffers of one connection, made before it opens, so that an open one takes no memory.
///
/// A clause sees them as what they are made for.
#[derive(Drop)]
pub struct Buffers {
    /// That of the sending half.
    send: SendBuf,
    /// That of the receiving half.
    receive: RecvBuf,
    /// How the connection behaves.
    manner: Manner,
}

impl Model for Buffers {
    ghost use Rattle.std.specs.Prelude.{◌≡◌, ◌≤◌};
    ghost use Rattle.stream_buf.specs.Sending.{nothing_held};
    ghost use Rattle.stream_buf.specs.Receiving.{nothing_received};
    ghost use Rattle.tcp_segment.specs.declared.TheConstants.{MSS};
    ghost use Rattle.tcp_halves.specs.declared.buffers.TheConstants.{LARGEST_CAPACITY};
    ghost use Rattle.tcp_halves.specs.Halves.{Room};

    ghost Value = { Room };

    ghost view = { λ b. record { capacity = b.receive.capacity; manner = b.manner } };

    ghost invariant = { λ b. (b.send ≡ nothing_held b.receive.capacity) × (b.receive ≡ nothing_received b.receive.capacity) × (MSS ≤ b.receive.capacity) × (b.receive.capacity ≤ LARGEST_CAPACITY) };
}

impl Buffers {
    /// Two empty buffers of so many octets each, those of a segment at least: a smaller window would never be told (RFC 9293 section
    /// 3.8.6.2.2). Fails only where memory is refused.
    pub fn new(alloc: Global, capacity: usize, manner: Manner) -> Result<Buffers, AllocError>
        requires least { MSS ≤ capacity }
        requires most { capacity ≤ LARGEST_CAPACITY }
        ensures { IfOk result (λ buffers. buffers ≡ record { capacity = capacity; manner = manner }) }
    {
        let send = SendBuf::with_capacity(alloc, capacity)?;
        let receive = RecvBuf::with_capacity(alloc, capacity)?;
        Ok(Buffers {
            send,
            receive,
            manner,
        })
    }

    /// The halves of a connection that opens: nothing is sent, its SYN will have the number `isn`, nothing has come, and no window is
    /// advertised. Each holds as many octets as its buffer, but no more than a window can be told of.
    pub fn into_halves(self, isn: Seq) -> (Sender, Receiver)
        ensures least { MSS ≤ self.capacity }
        ensures most { self.capacity ≤ LARGEST_CAPACITY }
        ensures sender { result.0 ≡ sending_from (size_of self) isn.0 }
        ensures receiver { result.1 ≡ receiving_nothing self }
        ensures fits { ReceivingFits result.1 }
        ensures buffer { IsReceiving (buffer_of result.1) }
        ensures kept { KeptInWindow result.1 }
    {
        let Buffers {
            send,
            receive,
            manner,
        } = self;
        (
            Sender::new(send, isn, manner.scales),
            Receiver::new(receive, manner),
        )
    }

    /// How the connection behaves.
    pub fn manner(&self) -> Manner
        ensures { result ≡ self.now.manner }
    {
        self.manner
    }
}

/// How many octets of a buffer count: all where windows are scaled, and else no more than 16 bits can tell of.
pub(crate) fn size_in(scales: bool, capacity: usize) -> usize
    ensures value { result ≡ size_in scales capacity }
    ensures bound { result ≤ capacity }
{
    if scales {
        capacity
    } else {
        capacity.min(CAPACITY)
    }
}

/// How many octets a unit has of the windows that this stack tells.
pub(crate) fn own_unit(scales: bool) -> u32
    ensures { result ≡ own_unit scales }
{
    if scales { 1 << SHIFT } else { 1 }
}
