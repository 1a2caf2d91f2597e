//! The frames that go out.

ghost use Rattle.std.specs.Prelude.{◌≡◌, ◌+◌, ◌≤◌, ◌++◌, drop, max, slice_range};
ghost use Rattle.ipv4.specs.declared.limits.TheConstants.{PAYLOAD_IN_FRAME};
ghost use Rattle.ipv4.specs.Datagram.{HasPlace};
ghost use Rattle.frames.specs.Sent.{framed, ipv4_head, part_head, part_frame, segment_frame, message_frame, packet_frame, packet_destination};

use arp::{ArpPacket, Operation};
use ether::{ETHERTYPE_ARP, ETHERTYPE_IPV4, FRAME_MAX, Mac};
use ipv4::{Addr, Protocol};
use udp::Part;

/// The length of the heads of a frame and of the datagram that it carries, in octets (RFC 894, RFC 791 section 3.1).
pub const HEADS: usize = ether::HEADER_LEN + ipv4::HEADER_LEN;

/// What stands before a segment, an ICMP message or a part of a UDP datagram in a frame, but for what the stack determines.
#[derive(Clone, Copy, PartialEq, Eq, Debug)]
pub struct FrameHead {
    /// The interface that the frame is for.
    pub destination: Mac,
    /// The interface that it comes from.
    pub source: Mac,
    /// The address that the datagram comes from.
    pub from: Addr,
    /// The address that it is for.
    pub to: Addr,
}

impl FrameHead {
    /// Writes the heads of frame and datagram before a segment of so many octets, at most 1,480, which stands at `out[34..]`
    /// already, pads a short frame with zeros, and answers its length, 60 octets at least (RFC 894, RFC 791 section 3.1). What
    /// stands behind it in `out` stays.
    pub fn emit_tcp(&self, segment_len: usize, out: &mut [u8; FRAME_MAX]) -> usize
        requires { segment_len ≤ PAYLOAD_IN_FRAME }
        ensures len { result ≡ max (34 + segment_len) 60 }
        ensures octets { out.new ≡ segment_frame self.now (slice_range out.old 34 (34 + segment_len)) ++ drop result out.old }
    {
        self.emit(self.ipv4_head(Protocol::TCP), segment_len, out)
    }

    /// Writes the heads of frame and datagram before an ICMP message of so many octets, at most 1,480, which stands at `out[34..]`
    /// already, pads a short frame with zeros, and answers its length, 60 octets at least (RFC 894, RFC 791 section 3.1, RFC 792).
    /// What stands behind it in `out` stays.
    pub fn emit_icmp(&self, message_len: usize, out: &mut [u8; FRAME_MAX]) -> usize
        requires { message_len ≤ PAYLOAD_IN_FRAME }
        ensures len { result ≡ max (34 + message_len) 60 }
        ensures octets { out.new ≡ message_frame self.now (slice_range out.old 34 (34 + message_len)) ++ drop result out.old }
    {
        self.emit(self.ipv4_head(Protocol::ICMP), message_len, out)
    }

    /// Writes the heads of frame and datagram before a part of a UDP datagram, at most 1,480 octets, which stands at `out[34..]`
    /// already, pads a short frame with zeros, and answers its length, 60 octets at least (RFC 894, RFC 791 section 3.2, RFC 768).
    /// What stands behind it in `out` stays.
    pub fn emit_udp(&self, part: Part, out: &mut [u8; FRAME_MAX]) -> usize
        requires most { part.fragment.len ≤ PAYLOAD_IN_FRAME }
        requires place { HasPlace part.fragment.more_fragments part.fragment.offset part.fragment.len }
        ensures len { result ≡ max (34 + part.fragment.len) 60 }
        ensures octets { out.new ≡ part_frame self.now part (slice_range out.old 34 (34 + part.fragment.len)) ++ drop result out.old }
    {
        self.emit(self.part_head(part), usize::from(part.fragment.len), out)
    }

    /// Writes the head of the frame and this header of a datagram before a payload. Its callers know most of that header, so it is a part of each.
    #[inline(always)]
    fn emit(&self, head: ipv4::Head, payload_len: usize, out: &mut [u8; FRAME_MAX]) -> usize
        requires most { payload_len ≤ PAYLOAD_IN_FRAME }
        requires place { HasPlace head.more_fragments head.offset payload_len }
        ensures len { result ≡ max (34 + payload_len) 60 }
        ensures octets { out.new ≡ framed self.now head (slice_range out.old 34 (34 + payload_len)) ++ drop result out.old }
    {
        let datagram_len = head.emit(payload_len, &mut out[ether::HEADER_LEN..]);
        ether::Head {
            destination: self.destination,
            source: self.source,
            kind: ETHERTYPE_IPV4,
        }
        .emit(datagram_len, out)
    }

    /// The header of the datagram that carries this protocol.
    fn ipv4_head(&self, protocol: Protocol) -> ipv4::Head
        ensures { result ≡ ipv4_head self.now protocol.0 }
    {
        ipv4::Head {
            source: self.from,
            destination: self.to,
            protocol,
            identification: 0,
            dont_fragment: true,
            more_fragments: false,
            offset: 0,
        }
    }

    /// The header of the datagram that carries this part of a UDP datagram.
    fn part_head(&self, part: Part) -> ipv4::Head
        ensures { result ≡ part_head self.now part }
    {
        ipv4::Head {
            source: self.from,
            destination: self.to,
            protocol: Protocol::UDP,
            identification: part.identification,
            dont_fragment: false,
            more_fragments: part.fragment.more_fragments,
            offset: part.fragment.offset,
        }
    }
}

/// Writes the frame of a packet, from its sender's interface: a request for all of the link, a reply for its target (RFC 826).
/// Answers its length, 60 octets. What stands behind it in `out` stays.
pub fn emit_arp(packet: &ArpPacket, out: &mut [u8; FRAME_MAX]) -> usize
    ensures len { result ≡ 60 }
    ensures octets { out.new ≡ packet_frame packet.now ++ drop 60 out.old }
{
    packet.emit(&mut out[ether::HEADER_LEN..]);
    ether::Head {
        destination: packet_destination(packet.operation, packet.target_mac),
        source: packet.sender_mac,
        kind: ETHERTYPE_ARP,
    }
    .emit(arp::LEN, out)
}

/// The interface that the frame of a packet is for.
fn packet_destination(operation: Operation, target: Mac) -> Mac
    ensures { result ≡ packet_destination operation target }
{
    match operation {
        Operation::Request => Mac::BROADCAST,
        Operation::Reply => target,
    }
}
