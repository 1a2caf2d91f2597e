//! The pair of the two ends of the segment that a frame carries.

ghost use Rattle.std.specs.Prelude.{◌≡◌, Ok};
ghost use Rattle.ipv4.specs.Reading.{datagram_in};
ghost use Rattle.tcp_segment.specs.Reading.{segment_in};
ghost use Rattle.frames.specs.Pairs.{pair_in, datagram_pair, segment_pair, pair_between};

use crate::reading::is_fragment;
use ether::{ETHERTYPE_IPV4, EtherView};
use ipv4::{Addr, Endpoint, Ipv4View, Pair, Protocol};
use tcp_segment::TcpView;

/// The pair of the two ends of the TCP segment that these octets carry, whoever they are for; none where they carry none (RFC 9293
/// section 4).
pub fn pair_in(octets: &[u8]) -> Option<Pair>
    ensures { result ≡ pair_in octets.now }
{
    match EtherView::parse(octets) {
        Ok(frame) if frame.kind() == ETHERTYPE_IPV4 => datagram_pair(frame.payload()),
        Ok(_) => None,
        Err(_) => None,
    }
}

/// The pair of the segment that a datagram carries.
fn datagram_pair(octets: &[u8]) -> Option<Pair>
    ensures { result ≡ datagram_pair (datagram_in octets.now) }
{
    match Ipv4View::parse(octets) {
        Ok(datagram) => parsed_pair(&datagram),
        Err(_) => None,
    }
}

/// The pair of the segment that a datagram carries which was parsed: a whole one of TCP.
fn parsed_pair(datagram: &Ipv4View<'_>) -> Option<Pair>
    ensures { result ≡ datagram_pair (Ok datagram.now) }
{
    if is_fragment(datagram) || datagram.protocol() != Protocol::TCP {
        return None;
    }
    segment_pair(
        datagram.source(),
        datagram.destination(),
        datagram.payload(),
    )
}

/// The pair of a segment between these addresses.
fn segment_pair(source: Addr, destination: Addr, octets: &[u8]) -> Option<Pair>
    ensures { result ≡ segment_pair source destination (segment_in source destination octets.now) }
{
    match TcpView::parse(source, destination, octets) {
        Ok(segment) => Some(pair_between(source, destination, &segment)),
        Err(_) => None,
    }
}

/// The pair of the two ends of a segment between these addresses.
fn pair_between(source: Addr, destination: Addr, segment: &TcpView<'_>) -> Pair
    ensures { result ≡ pair_between source destination segment.now }
{
    let from = Endpoint {
        addr: source,
        port: segment.source(),
    };
    let to = Endpoint {
        addr: destination,
        port: segment.destination(),
    };
    Pair::new(from, to)
}
