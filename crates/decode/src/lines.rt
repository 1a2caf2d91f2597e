//! The line that each layer of a frame prints.

ghost use Rattle.std.specs.Prelude.{◌≡◌, ◌++◌, OnOk, string_bytes};
ghost use Rattle.decode.specs.Words.{mac_text, addr_text};
ghost use Rattle.decode.specs.Lines.{parted, ether_line, arp_line, packet_text, operation_text, ipv4_line, icmp_line, message_text, udp_line, user_text, tcp_line};

use crate::words::{fragment_name, push_addr, push_flags, push_hex_of_two, push_mac, push_mss};
use arp::{ArpPacket, Operation};
use ether::{EtherView, Mac};
use icmp::IcmpView;
use ipv4::{Addr, Ipv4View};
use std::alloc::AllocError;
use tcp_segment::TcpView;
use udp::UdpView;

/// Adds the line of a frame's head.
pub(crate) fn push_ether(frame: &EtherView<'_>, lines: &mut String) -> Result<(), AllocError>
    ensures { OnOk result (string_bytes lines.new ≡ string_bytes lines.old ++ ether_line frame.now) }
{
    lines.push_str("ether ")?;
    push_macs(frame.destination(), frame.source(), lines)?;
    lines.push_str(" ")?;
    push_hex_of_two(frame.kind(), lines)?;
    lines.push_str("\n")
}

/// Adds two MACs, parted by a blank.
fn push_macs(first: Mac, second: Mac, lines: &mut String) -> Result<(), AllocError>
    ensures { OnOk result (string_bytes lines.new ≡ string_bytes lines.old ++ parted (mac_text first) (mac_text second)) }
{
    push_mac(first, lines)?;
    lines.push_str(" ")?;
    push_mac(second, lines)
}

/// Adds the line of an ARP packet.
pub(crate) fn push_arp(packet: &ArpPacket, lines: &mut String) -> Result<(), AllocError>
    ensures { OnOk result (string_bytes lines.new ≡ string_bytes lines.old ++ arp_line packet.now) }
{
    push_packet(packet, lines)?;
    lines.push_str("\n")
}

/// Adds what an ARP packet says, with no newline: `arp request` or `arp reply`, the sender's MAC and address, and the target's (RFC 826). An error
/// is want of memory.
pub fn push_packet(packet: &ArpPacket, text: &mut String) -> Result<(), AllocError>
    ensures { OnOk result (string_bytes text.new ≡ string_bytes text.old ++ packet_text packet.now) }
{
    write!(text, "arp {} ", operation_name(packet.operation))?;
    push_station(packet.sender_mac, packet.sender_addr, text)?;
    text.push_str(" ")?;
    push_station(packet.target_mac, packet.target_addr, text)
}

/// Adds a MAC and an address, parted by a blank.
fn push_station(mac: Mac, addr: Addr, lines: &mut String) -> Result<(), AllocError>
    ensures { OnOk result (string_bytes lines.new ≡ string_bytes lines.old ++ parted (mac_text mac) (addr_text addr)) }
{
    push_mac(mac, lines)?;
    lines.push_str(" ")?;
    push_addr(addr, lines)
}

/// What an ARP packet is for.
fn operation_name<'a>(operation: Operation) -> &'a str
    ensures { result.now ≡ operation_text operation }
{
    match operation {
        Operation::Request => "request",
        Operation::Reply => "reply",
    }
}

/// Adds the line of an IPv4 header.
pub(crate) fn push_ipv4(datagram: &Ipv4View<'_>, lines: &mut String) -> Result<(), AllocError>
    ensures { OnOk result (string_bytes lines.new ≡ string_bytes lines.old ++ ipv4_line datagram.now) }
{
    lines.push_str("ipv4 ")?;
    push_addrs(datagram.source(), datagram.destination(), lines)?;
    write!(
        lines,
        " proto {} ttl {} id {} off {} flags {} payload {}\n",
        datagram.protocol().0,
        datagram.ttl(),
        datagram.identification(),
        8 * u32::from(datagram.offset()),
        fragment_name(datagram.dont_fragment(), datagram.more_fragments()),
        datagram.payload().len()
    )
}

/// Adds two addresses, parted by a blank.
fn push_addrs(first: Addr, second: Addr, lines: &mut String) -> Result<(), AllocError>
    ensures { OnOk result (string_bytes lines.new ≡ string_bytes lines.old ++ parted (addr_text first) (addr_text second)) }
{
    push_addr(first, lines)?;
    lines.push_str(" ")?;
    push_addr(second, lines)
}

/// Adds the line of an ICMP message.
pub(crate) fn push_icmp(message: &IcmpView<'_>, lines: &mut String) -> Result<(), AllocError>
    ensures { OnOk result (string_bytes lines.new ≡ string_bytes lines.old ++ icmp_line message.now) }
{
    push_message(message, lines)?;
    lines.push_str("\n")
}

/// Adds what an ICMP message says, with no newline: its type, its code, and the octets of its data (RFC 792). An error is want of memory.
pub fn push_message(message: &IcmpView<'_>, text: &mut String) -> Result<(), AllocError>
    ensures { OnOk result (string_bytes text.new ≡ string_bytes text.old ++ message_text message.now) }
{
    write!(
        text,
        "icmp type {} code {} data {}",
        message.kind().0,
        message.code(),
        message.payload().len()
    )
}

/// Adds the line of a UDP datagram.
pub(crate) fn push_udp(datagram: &UdpView<'_>, lines: &mut String) -> Result<(), AllocError>
    ensures { OnOk result (string_bytes lines.new ≡ string_bytes lines.old ++ udp_line datagram.now) }
{
    push_user(datagram, lines)?;
    lines.push_str("\n")
}

/// Adds what a UDP datagram says, with no newline: its ports, and the octets of its data (RFC 768). An error is want of memory.
pub fn push_user(datagram: &UdpView<'_>, text: &mut String) -> Result<(), AllocError>
    ensures { OnOk result (string_bytes text.new ≡ string_bytes text.old ++ user_text datagram.now) }
{
    write!(
        text,
        "udp {} {} data {}",
        datagram.source(),
        datagram.destination(),
        datagram.payload().len()
    )
}

/// Adds the line of a TCP segment.
pub(crate) fn push_tcp(segment: &TcpView<'_>, lines: &mut String) -> Result<(), AllocError>
    ensures { OnOk result (string_bytes lines.new ≡ string_bytes lines.old ++ tcp_line segment.now) }
{
    write!(
        lines,
        "tcp {} {} seq {} ack {} flags ",
        segment.source(),
        segment.destination(),
        segment.number().0,
        segment.acknowledgement().0
    )?;
    push_flags(segment.flags(), lines)?;
    write!(lines, " win {} mss ", segment.window())?;
    push_mss(segment.mss_option(), lines)?;
    write!(lines, " data {}\n", segment.payload().len())
}
