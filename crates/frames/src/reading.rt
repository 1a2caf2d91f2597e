//! Octets, layer by layer.

ghost use Rattle.std.specs.Prelude.{◌≡◌, ◌&&◌};
ghost use Rattle.ether.specs.Frame.{Frame};
ghost use Rattle.ether.specs.Reading.{frame_in};
ghost use Rattle.arp.specs.Reading.{packet_in};
ghost use Rattle.ipv4.specs.Addresses.{same_addr};
ghost use Rattle.ipv4.specs.Reading.{datagram_in};
ghost use Rattle.tcp_segment.specs.Reading.{segment_or_fault};
ghost use Rattle.icmp.specs.Reading.{message_or_fault};
ghost use Rattle.udp.specs.Reading.{datagram_or_fault};
ghost use Rattle.frames.specs.Meaning.{heard, frame_heard, payload_heard, packet_heard, datagram_heard, upper_heard, fragment_heard, segment_heard, message_heard, user_heard, is_for, is_fragment, may_send};

use crate::drop::DropCause;
use crate::meaning::{Control, Meaning, ReceivedDatagram, ReceivedSegment};
use arp::ArpPacket;
use ether::{ETHERTYPE_ARP, ETHERTYPE_IPV4, EtherView, FRAME_MAX, Mac};
use icmp::{IcmpFault, IcmpView};
use ipv4::{Addr, Ipv4Fault, Ipv4View, Protocol};
use tcp_segment::{SegmentFault, TcpView};
use udp::{UdpFault, UdpView};

/// What these octets are to a host with this MAC and this address, or the first cause to drop them, from the lowest layer up:
/// the frame (RFC 894), the ARP packet (RFC 826) or the datagram (RFC 791), its addresses (RFC 1122 section 3.2.1.3), and the
/// segment (RFC 9293 section 3.1), the ICMP message (RFC 792) or the UDP datagram (RFC 768). It is never `NoRoom`.
pub fn read(mac: Mac, addr: Addr, octets: &[u8]) -> Result<Meaning<'_>, DropCause>
    ensures { result ≡ heard mac addr octets.now }
{
    if octets.len() > FRAME_MAX {
        return Err(DropCause::Short);
    }
    match EtherView::parse(octets) {
        Ok(frame) if is_for(mac, &frame) => read_payload(addr, frame.kind(), frame.payload()),
        Ok(_) => Err(DropCause::OtherMac),
        Err(_) => Err(DropCause::Short),
    }
}

/// Whether a frame is for the interface with this MAC: by that MAC, or for all of the link where it carries ARP.
fn is_for(mac: Mac, frame: &EtherView<'_>) -> bool
    ensures { result ≡ is_for mac frame.now }
{
    let destination = frame.destination();
    destination.is_same(mac) || (destination == Mac::BROADCAST && frame.kind() == ETHERTYPE_ARP)
}

/// What the payload of a frame for us is.
fn read_payload(addr: Addr, kind: u16, octets: &[u8]) -> Result<Meaning<'_>, DropCause>
    ensures { result ≡ payload_heard addr kind octets.now }
{
    match kind {
        ETHERTYPE_ARP => read_packet(addr, octets),
        ETHERTYPE_IPV4 => read_datagram(addr, octets),
        _ => Err(DropCause::OtherType),
    }
}

/// What an ARP packet is.
fn read_packet(addr: Addr, octets: &[u8]) -> Result<Meaning<'_>, DropCause>
    ensures { result ≡ packet_heard addr (packet_in octets.now) }
{
    match ArpPacket::parse(octets) {
        Ok(packet) if may_send(addr, packet.sender_addr) => Ok(Meaning::Arp(packet)),
        Ok(_) => Err(DropCause::OtherAddress),
        Err(_) => Err(DropCause::UpperHeader),
    }
}

/// What a datagram is.
fn read_datagram(addr: Addr, octets: &[u8]) -> Result<Meaning<'_>, DropCause>
    ensures { result ≡ datagram_heard addr (datagram_in octets.now) }
{
    match Ipv4View::parse(octets) {
        Ok(datagram) if is_for_us(addr, &datagram) => read_upper(datagram),
        Ok(_) => Err(DropCause::OtherAddress),
        Err(Ipv4Fault::IpHeader) => Err(DropCause::IpHeader),
        Err(Ipv4Fault::IpSum) => Err(DropCause::IpSum),
    }
}

/// Whether a datagram is for us, from an address that another host may have.
fn is_for_us(addr: Addr, datagram: &Ipv4View<'_>) -> bool
    ensures { result ≡ (same_addr datagram.now.destination addr && may_send addr datagram.now.source) }
{
    datagram.destination() == addr && may_send(addr, datagram.source())
}

/// What a datagram for us carries.
fn read_upper<'a>(datagram: Ipv4View<'a>) -> Result<Meaning<'a>, DropCause>
    ensures { result ≡ upper_heard datagram.entry }
{
    if is_fragment(&datagram) {
        return read_fragment(datagram);
    }
    match datagram.protocol() {
        Protocol::TCP => read_segment(
            datagram.source(),
            datagram.destination(),
            datagram.payload(),
        ),
        Protocol::ICMP => read_message(datagram.source(), datagram.payload()),
        Protocol::UDP => read_user(datagram),
        _ => Ok(Meaning::Other(datagram)),
    }
}

/// What a fragment for us is.
fn read_fragment<'a>(datagram: Ipv4View<'a>) -> Result<Meaning<'a>, DropCause>
    ensures { result ≡ fragment_heard datagram.entry }
{
    if datagram.protocol() == Protocol::UDP {
        Ok(Meaning::UdpFragment(datagram))
    } else {
        Err(DropCause::Fragment)
    }
}

/// What a segment between these addresses is.
fn read_segment(source: Addr, destination: Addr, octets: &[u8]) -> Result<Meaning<'_>, DropCause>
    ensures { result ≡ segment_heard source (segment_or_fault source destination octets.now) }
{
    match TcpView::parse(source, destination, octets) {
        Ok(segment) => Ok(Meaning::Tcp(ReceivedSegment { source, segment })),
        Err(SegmentFault::UpperHeader) => Err(DropCause::UpperHeader),
        Err(SegmentFault::UpperSum) => Err(DropCause::UpperSum),
    }
}

/// What an ICMP message from this address is.
fn read_message(source: Addr, octets: &[u8]) -> Result<Meaning<'_>, DropCause>
    ensures { result ≡ message_heard source (message_or_fault octets.now) }
{
    match IcmpView::parse(octets) {
        Ok(message) => Ok(Meaning::Icmp(Control { source, message })),
        Err(IcmpFault::UpperHeader) => Err(DropCause::UpperHeader),
        Err(IcmpFault::UpperSum) => Err(DropCause::UpperSum),
    }
}

/// What the payload of a whole datagram of UDP is.
fn read_user<'a>(carrier: Ipv4View<'a>) -> Result<Meaning<'a>, DropCause>
    ensures { result ≡ user_heard carrier.entry (datagram_or_fault carrier.entry.source carrier.entry.destination carrier.entry.payload) }
{
    match UdpView::parse(carrier.source(), carrier.destination(), carrier.payload()) {
        Ok(datagram) => Ok(Meaning::Udp(ReceivedDatagram { carrier, datagram })),
        Err(UdpFault::UpperHeader) => Err(DropCause::UpperHeader),
        Err(UdpFault::UpperSum) => Err(DropCause::UpperSum),
    }
}

/// Whether another host may send from this address.
fn may_send(addr: Addr, source: Addr) -> bool
    ensures { result ≡ may_send addr source }
{
    source.is_unicast() && source != addr
}

/// Whether a datagram is a part of one.
pub(crate) fn is_fragment(datagram: &Ipv4View<'_>) -> bool
    ensures { result ≡ is_fragment datagram.now }
{
    datagram.more_fragments() || datagram.offset() != 0
}
