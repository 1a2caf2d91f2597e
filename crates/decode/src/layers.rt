//! A frame, layer by layer.

ghost use Rattle.std.specs.Prelude.{◌≡◌, ◌++◌, IfOk, OnOk, string_bytes};
ghost use Rattle.decode.specs.Layers.{Decodes, Grows, Shows, IsShown, IsPayloadShown, IsDatagramShown, IsUpperShown, carried_by, upper_in, drop_line, ipv4_cause, arp_shown, icmp_shown, udp_shown, tcp_shown};

use crate::carried::{Carried, Upper, carried_by, upper_in};
use crate::lines::{push_arp, push_ether, push_icmp, push_ipv4, push_tcp, push_udp};
use crate::unreadable::Unreadable;
use arp::{ArpFault, ArpPacket};
use ether::{EtherView, FrameFault};
use icmp::{IcmpFault, IcmpView};
use ipv4::{Ipv4Fault, Ipv4View};
use std::alloc::AllocError;
use tcp_segment::{SegmentFault, TcpView};
use udp::{UdpFault, UdpView};

/// Adds a line for each layer of a frame to `lines`: `ether`, then `arp`, or `ipv4` and then `icmp`, `udp` or `tcp`. Nothing is printed
/// above a fragment, nor of another protocol. Where a layer can't be read, the last line says why, and that cause is answered.
/// Addresses aren't looked at. An error is want of memory.
pub fn decode(frame: &[u8], lines: &mut String) -> Result<Option<Unreadable>, AllocError>
    ensures { IfOk result (λ cause. Decodes frame.now cause (string_bytes lines.old) (string_bytes lines.new)) }
{
    let cause = show_frame(frame, lines)?;
    push_drop(cause, lines)?;
    Ok(cause)
}

/// Adds the line that says why something can't be read.
fn push_drop(cause: Option<Unreadable>, lines: &mut String) -> Result<(), AllocError>
    ensures { OnOk result (string_bytes lines.new ≡ string_bytes lines.old ++ drop_line cause) }
{
    match cause {
        Some(cause) => write!(lines, "drop F{}\n", cause.number()),
        None => Ok(()),
    }
}

/// Adds the lines of a frame.
fn show_frame(octets: &[u8], lines: &mut String) -> Result<Option<Unreadable>, AllocError>
    ensures { IfOk result (λ cause. Grows (IsShown octets.now) cause (string_bytes lines.old) (string_bytes lines.new)) }
{
    match EtherView::parse(octets) {
        Ok(frame) => {
            push_ether(&frame, lines)?;
            show_payload(frame.kind(), frame.payload(), lines)
        }
        Err(FrameFault::Short) => Ok(Some(Unreadable::Short)),
    }
}

/// Adds the lines of a frame's payload.
fn show_payload(
    kind: u16,
    octets: &[u8],
    lines: &mut String,
) -> Result<Option<Unreadable>, AllocError>
    ensures { IfOk result (λ cause. Grows (IsPayloadShown (carried_by kind) octets.now) cause (string_bytes lines.old) (string_bytes lines.new)) }
{
    match carried_by(kind) {
        Carried::Arp => show_packet(ArpPacket::parse(octets), lines),
        Carried::Ipv4 => show_datagram(Ipv4View::parse(octets), lines),
        Carried::Other => Ok(Some(Unreadable::OtherType)),
    }
}

/// Adds the line of an ARP packet.
fn show_packet(
    read: Result<ArpPacket, ArpFault>,
    lines: &mut String,
) -> Result<Option<Unreadable>, AllocError>
    ensures { IfOk result (λ cause. Shows (arp_shown read) cause (string_bytes lines.old) (string_bytes lines.new)) }
{
    match read {
        Ok(packet) => {
            push_arp(&packet, lines)?;
            Ok(None)
        }
        Err(ArpFault::UpperHeader) => Ok(Some(Unreadable::UpperHeader)),
    }
}

/// Adds the lines of a datagram.
fn show_datagram(
    read: Result<Ipv4View<'_>, Ipv4Fault>,
    lines: &mut String,
) -> Result<Option<Unreadable>, AllocError>
    ensures { IfOk result (λ cause. Grows (IsDatagramShown read.entry) cause (string_bytes lines.old) (string_bytes lines.new)) }
{
    match read {
        Ok(datagram) => {
            push_ipv4(&datagram, lines)?;
            show_upper(&datagram, lines)
        }
        Err(fault) => Ok(Some(ipv4_cause(fault))),
    }
}

/// Why there is no datagram.
fn ipv4_cause(fault: Ipv4Fault) -> Unreadable
    ensures { result ≡ ipv4_cause fault }
{
    match fault {
        Ipv4Fault::IpHeader => Unreadable::IpHeader,
        Ipv4Fault::IpSum => Unreadable::IpSum,
    }
}

/// Adds the line of what a datagram carries, where that is read.
fn show_upper(datagram: &Ipv4View<'_>, lines: &mut String) -> Result<Option<Unreadable>, AllocError>
    ensures { IfOk result (λ cause. Grows (IsUpperShown (upper_in datagram.now) datagram.now) cause (string_bytes lines.old) (string_bytes lines.new)) }
{
    let (source, destination) = (datagram.source(), datagram.destination());
    let octets = datagram.payload();
    match upper_in(datagram) {
        Upper::Unread => Ok(None),
        Upper::Icmp => show_message(IcmpView::parse(octets), lines),
        Upper::Udp => show_udp_datagram(UdpView::parse(source, destination, octets), lines),
        Upper::Tcp => show_segment(TcpView::parse(source, destination, octets), lines),
    }
}

/// Adds the line of an ICMP message.
fn show_message(
    read: Result<IcmpView<'_>, IcmpFault>,
    lines: &mut String,
) -> Result<Option<Unreadable>, AllocError>
    ensures { IfOk result (λ cause. Shows (icmp_shown read.entry) cause (string_bytes lines.old) (string_bytes lines.new)) }
{
    match read {
        Ok(message) => {
            push_icmp(&message, lines)?;
            Ok(None)
        }
        Err(IcmpFault::UpperHeader) => Ok(Some(Unreadable::UpperHeader)),
        Err(IcmpFault::UpperSum) => Ok(Some(Unreadable::UpperSum)),
    }
}

/// Adds the line of a UDP datagram.
fn show_udp_datagram(
    read: Result<UdpView<'_>, UdpFault>,
    lines: &mut String,
) -> Result<Option<Unreadable>, AllocError>
    ensures { IfOk result (λ cause. Shows (udp_shown read.entry) cause (string_bytes lines.old) (string_bytes lines.new)) }
{
    match read {
        Ok(datagram) => {
            push_udp(&datagram, lines)?;
            Ok(None)
        }
        Err(UdpFault::UpperHeader) => Ok(Some(Unreadable::UpperHeader)),
        Err(UdpFault::UpperSum) => Ok(Some(Unreadable::UpperSum)),
    }
}

/// Adds the line of a TCP segment.
fn show_segment(
    read: Result<TcpView<'_>, SegmentFault>,
    lines: &mut String,
) -> Result<Option<Unreadable>, AllocError>
    ensures { IfOk result (λ cause. Shows (tcp_shown read.entry) cause (string_bytes lines.old) (string_bytes lines.new)) }
{
    match read {
        Ok(segment) => {
            push_tcp(&segment, lines)?;
            Ok(None)
        }
        Err(SegmentFault::UpperHeader) => Ok(Some(Unreadable::UpperHeader)),
        Err(SegmentFault::UpperSum) => Ok(Some(Unreadable::UpperSum)),
    }
}
