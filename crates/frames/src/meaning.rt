//! What octets are to a host.

use arp::ArpPacket;
use icmp::IcmpView;
use ipv4::{Addr, Ipv4View};
use tcp_segment::TcpView;
use udp::UdpView;

/// What octets are to a host, its octets lent from the frame.
#[derive(Drop)]
pub enum Meaning<'a> {
    /// An ARP packet, whoever its target is (RFC 826).
    Arp(ArpPacket),
    /// A TCP segment for us (RFC 9293 section 3.1).
    Tcp(ReceivedSegment<'a>),
    /// An ICMP message for us (RFC 792).
    Icmp(Control<'a>),
    /// A whole UDP datagram for us (RFC 768).
    Udp(ReceivedDatagram<'a>),
    /// A whole datagram for us of a protocol that nothing here takes: not TCP, ICMP or UDP (RFC 791 section 3.1).
    Other(Ipv4View<'a>),
    /// A fragment of a UDP datagram for us (RFC 791 section 3.1).
    UdpFragment(Ipv4View<'a>),
}

/// A segment, and the address that it comes from.
#[derive(Drop)]
pub struct ReceivedSegment<'a> {
    /// The address that it comes from.
    pub source: Addr,
    /// The segment.
    pub segment: TcpView<'a>,
}

/// An ICMP message, and the address that it comes from.
#[derive(Drop)]
pub struct Control<'a> {
    /// The address that it comes from.
    pub source: Addr,
    /// The message.
    pub message: IcmpView<'a>,
}

/// A UDP datagram, and the datagram of IPv4 that carries it.
#[derive(Drop)]
pub struct ReceivedDatagram<'a> {
    /// The datagram of IPv4, whole.
    pub carrier: Ipv4View<'a>,
    /// The UDP datagram in its payload.
    pub datagram: UdpView<'a>,
}
