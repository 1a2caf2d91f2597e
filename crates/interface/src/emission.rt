//! The frames that go out.

ghost use Rattle.std.specs.Prelude.{◌≡◌, ◌+◌, ◌<◌, ◌≤◌, [], ◌++◌, length, drop, max, slice_range, IsTrue};
ghost use Rattle.ipv4.specs.declared.limits.TheConstants.{ERROR_QUOTE, PAYLOAD_IN_FRAME};
ghost use Rattle.ipv4.specs.Datagram.{HasPlace};
ghost use Rattle.icmp.specs.Message.{spelling};
ghost use Rattle.icmp.specs.Sent.{echo_reply, error_for};
ghost use Rattle.interface.specs.declared.room.TheConstants.{ECHO_ROOM};
ghost use Rattle.interface.specs.Replies.{goes_out};
ghost use Rattle.arp.specs.Cache.{may_ask};

use crate::interface::Interface;
use crate::reply::Reply;
use crate::room::{Quoted, Room};
use crate::way::Way;
use arp::ArpPacket;
use clock::Moment;
use ether::{FRAME_MAX, Mac};
use frames::{FrameHead, HEADS, emit_arp};
use icmp::{HEADER_LEN, Reason, emit_echo_reply, emit_error};
use ipv4::Addr;
use udp::Part;

impl Interface {
    ghost use Rattle.interface.specs.Emission.{asked, head_to, segment_frame_to, message_frame_to, part_frame_to, request_frame, reply_frame, reply_len, way_at, len_at, frame_at, after_emission};

    /// Writes the frame of a segment for an address, which stands at `out[34..]` already and has so many octets, at most 1,480, round
    /// it, for the interface with this MAC (RFC 894, RFC 791 section 3.1). Answers the frame's length, 60 octets at least. What stands
    /// behind it in `out` stays.
    #[tactic(auto, unfolding(crate::specs::Emission::segment_frame_to))]
    pub fn emit_segment(
        &self,
        mac: Mac,
        to: Addr,
        segment_len: usize,
        out: &mut [u8; FRAME_MAX],
    ) -> usize
        requires { segment_len ≤ PAYLOAD_IN_FRAME }
        ensures len { result ≡ max (34 + segment_len) 60 }
        ensures octets { out.new ≡ segment_frame_to self.now mac to (slice_range out.old 34 (34 + segment_len)) ++ drop result out.old }
    {
        self.head_to(mac, to).emit_tcp(segment_len, out)
    }

    /// Writes the frame of a part of a UDP datagram for an address in the same way: its octets, at most 1,480, stand at `out[34..]` already
    /// (RFC 768, RFC 791 section 3.2).
    #[tactic(auto, unfolding(crate::specs::Emission::part_frame_to))]
    pub fn emit_part(&self, mac: Mac, to: Addr, part: Part, out: &mut [u8; FRAME_MAX]) -> usize
        requires most { part.fragment.len ≤ PAYLOAD_IN_FRAME }
        requires place { HasPlace part.fragment.more_fragments part.fragment.offset part.fragment.len }
        ensures len { result ≡ max (34 + part.fragment.len) 60 }
        ensures octets { out.new ≡ part_frame_to self.now mac to part (slice_range out.old 34 (34 + part.fragment.len)) ++ drop result out.old }
    {
        self.head_to(mac, to).emit_udp(part, out)
    }

    /// Writes the frame of an ICMP message for an address in the same way: it stands at `out[34..]` already and has so many octets.
    #[tactic(auto, unfolding(crate::specs::Emission::message_frame_to))]
    fn emit_message(
        &self,
        mac: Mac,
        to: Addr,
        message_len: usize,
        out: &mut [u8; FRAME_MAX],
    ) -> usize
        requires { message_len ≤ PAYLOAD_IN_FRAME }
        ensures len { result ≡ max (34 + message_len) 60 }
        ensures octets { out.new ≡ message_frame_to self.now mac to (slice_range out.old 34 (34 + message_len)) ++ drop result out.old }
    {
        self.head_to(mac, to).emit_icmp(message_len, out)
    }

    /// What stands before a segment, a message or a part of a UDP datagram for an address, in a frame for the interface with this MAC.
    fn head_to(&self, mac: Mac, to: Addr) -> FrameHead
        ensures { result ≡ head_to self.now mac to }
    {
        FrameHead {
            destination: mac,
            source: self.mac,
            from: self.addr,
            to,
        }
    }

    /// Writes the frame of a request for the MAC of a neighbour, and notes that it goes out now (RFC 826). The caller knows that one
    /// may (RFC 1122 section 2.3.2.1). Answers its length, 60 octets. What stands behind it in `out` stays.
    #[tactic(auto, unfolding(crate::specs::Emission::request_frame))]
    pub fn emit_request(&mut self, now: Moment, hop: Addr, out: &mut [u8; FRAME_MAX]) -> usize
        requires { IsTrue (may_ask now hop self.old.cache.asked) }
        ensures after { self.new ≡ asked self.old now hop }
        ensures len { result ≡ 60 }
        ensures octets { out.new ≡ request_frame self.old hop ++ drop 60 out.old }
    {
        self.cache.ask(now, hop);
        emit_arp(&ArpPacket::request(self.mac, self.addr, hop), out)
    }

    /// Writes the frame that goes out now for the reply at a place, as `first_reply` names it: the reply, which waits no longer then, or the
    /// request for its hop, which is noted, and the reply stays as it is (RFC 1122 section 2.3.2.2). Answers the frame's length, 60 octets at
    /// least and 1,514 at most; 0 where the reply waits on, and then nothing has changed. What stands behind the frame in `out` stays.
    #[tactic(auto, using(crate::proofs::Waits::at_place, crate::proofs::Waits::reply_asks))]
    pub fn emit_reply(&mut self, now: Moment, place: usize, out: &mut [u8; FRAME_MAX]) -> usize
        requires { place < length self.old.replies }
        ensures len { result ≡ len_at self.old now place }
        ensures least { IsTrue (goes_out (way_at self.old now place)) → 60 ≤ result }
        ensures most { result ≤ 1514 }
        ensures after { self.new ≡ after_emission self.old now place }
        ensures octets { out.new ≡ frame_at self.old now place ++ drop result out.old }
    {
        let reply = &self.replies.as_slice()[place].reply;
        match self.way_of(now, reply) {
            Way::To(mac) => {
                let len = self.emit_to(mac, reply, out);
                self.replies.remove(place);
                len
            }
            Way::Ask(hop) => self.emit_request(now, hop, out),
            Way::Waits => 0,
        }
    }

    /// Writes the frame of a reply for the interface with this MAC, and answers its length, 60 octets at least and 1,514 at most. What
    /// stands behind it in `out` stays.
    #[tactic(auto, unfolding(crate::specs::Emission::reply_frame))]
    fn emit_to(&self, mac: Mac, reply: &Reply, out: &mut [u8; FRAME_MAX]) -> usize
        ensures len { result ≡ reply_len reply.now }
        ensures least { 60 ≤ result }
        ensures most { result ≤ 1514 }
        ensures octets { out.new ≡ reply_frame self.now mac reply.now ++ drop result out.old }
    {
        match reply {
            Reply::Arp(packet) => emit_arp(packet, out),
            Reply::Reset { to, head } => {
                let segment_len = head.head().emit(self.addr, *to, 0, 0, &mut out[HEADS..]);
                self.emit_segment(mac, *to, segment_len, out)
            }
            Reply::Echo {
                to,
                identifier,
                number,
                data,
            } => {
                let message_len = write_echo(*identifier, *number, data, &mut out[HEADS..]);
                self.emit_message(mac, *to, message_len, out)
            }
            Reply::Error { to, reason, quoted } => {
                let message_len = write_error(*reason, quoted, &mut out[HEADS..]);
                self.emit_message(mac, *to, message_len, out)
            }
        }
    }
}

/// Writes an echo reply with this identifier, number and data, and answers its length, in octets. What stands behind it in `out` stays.
fn write_echo(identifier: u16, number: u16, room: &Room, out: &mut [u8]) -> usize
    requires { length out.old ≡ PAYLOAD_IN_FRAME }
    ensures len { result ≡ 8 + length room.now }
    ensures most { length room.now ≤ ECHO_ROOM }
    ensures octets { out.new ≡ spelling (echo_reply identifier number room.now) ++ drop result out.old }
{
    let octets = room.as_slice();
    out[HEADER_LEN..HEADER_LEN + octets.len()].copy_from_slice(octets);
    emit_echo_reply(identifier, number, octets.len(), out)
}

/// Writes an error for this reason that quotes these octets, and answers its length, in octets. What stands behind it in `out` stays.
fn write_error(reason: Reason, quoted: &Quoted, out: &mut [u8]) -> usize
    requires { length out.old ≡ PAYLOAD_IN_FRAME }
    ensures len { result ≡ 8 + length quoted.now }
    ensures most { length quoted.now ≤ ERROR_QUOTE }
    ensures octets { out.new ≡ spelling (error_for reason quoted.now []) ++ drop result out.old }
{
    emit_error(reason, quoted.as_slice(), &[], out)
}
