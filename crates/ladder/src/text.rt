//! What a ladder tells of a frame.

ghost use Rattle.std.specs.Prelude.{◌≡◌, ◌++◌, OnOk, string_bytes};
ghost use Rattle.ladder.specs.Text.{acknowledgement_text, datagram_text, direction_of, segment_text, syns_in, text_of};

use crate::numbers::{Direction, Numbering, Syn, initial_in, push_number};
use decode::{fragment_name, push_flags, push_message, push_packet, push_user};
use frames::{DropCause, Meaning, ReceivedSegment};
use ipv4::{Addr, Endpoint, Ipv4View};
use std::alloc::AllocError;
use tcp_segment::TcpView;

/// Where a segment goes that came to this address.
fn direction_of(to: Addr, received: &ReceivedSegment<'_>) -> Direction
    ensures { result ≡ direction_of to received.now }
{
    Direction {
        source: Endpoint {
            addr: received.source,
            port: received.segment.source(),
        },
        destination: Endpoint {
            addr: to,
            port: received.segment.destination(),
        },
    }
}

/// Adds the SYN of a frame to those that were seen, where it goes to this address and carries one.
pub(crate) fn note_syn(
    to: Addr,
    heard: &Result<Meaning<'_>, DropCause>,
    syns: &mut Vec<Syn>,
) -> Result<(), AllocError>
    ensures { OnOk result (syns.new.items ≡ syns.old.items ++ syns_in to heard.now) }
{
    match heard {
        Ok(Meaning::Tcp(received)) if received.segment.flags().syn => {
            syns.push(Syn {
                direction: direction_of(to, received),
                number: received.segment.number(),
            })?;
            Ok(())
        }
        _ => Ok(()),
    }
}

/// Adds what is told of a frame that goes to this address, after these SYNs.
pub(crate) fn push_text(
    numbering: Numbering,
    syns: &[Syn],
    to: Addr,
    heard: &Result<Meaning<'_>, DropCause>,
    text: &mut String,
) -> Result<(), AllocError>
    ensures { OnOk result (string_bytes text.new ≡ string_bytes text.old ++ text_of numbering syns.now to heard.now) }
{
    match heard {
        Ok(Meaning::Arp(packet)) => push_packet(packet, text),
        Ok(Meaning::Tcp(received)) => {
            let direction = direction_of(to, received);
            push_segment(numbering, syns, direction, &received.segment, text)
        }
        Ok(Meaning::Icmp(control)) => push_message(&control.message, text),
        Ok(Meaning::Udp(received)) => push_user(&received.datagram, text),
        Ok(Meaning::Other(datagram)) => push_datagram(datagram, text),
        Ok(Meaning::UdpFragment(datagram)) => push_datagram(datagram, text),
        Err(cause) => write!(text, "drop F{}", cause.number()),
    }
}

/// Adds what is told of a segment.
fn push_segment(
    numbering: Numbering,
    syns: &[Syn],
    direction: Direction,
    segment: &TcpView<'_>,
    text: &mut String,
) -> Result<(), AllocError>
    ensures { OnOk result (string_bytes text.new ≡ string_bytes text.old ++ segment_text numbering syns.now direction segment.now) }
{
    write!(text, "tcp {} {} ", segment.source(), segment.destination())?;
    push_flags(segment.flags(), text)?;
    text.push_str(" seq ")?;
    push_number(
        numbering,
        initial_in(direction, syns),
        segment.number(),
        text,
    )?;
    push_acknowledgement(numbering, syns, direction, segment, text)?;
    write!(
        text,
        " win {} data {}",
        segment.window(),
        segment.payload().len()
    )
}

/// Adds the acknowledgement of a segment, where it counts.
fn push_acknowledgement(
    numbering: Numbering,
    syns: &[Syn],
    direction: Direction,
    segment: &TcpView<'_>,
    text: &mut String,
) -> Result<(), AllocError>
    ensures { OnOk result (string_bytes text.new ≡ string_bytes text.old ++ acknowledgement_text numbering syns.now direction segment.now) }
{
    if !segment.flags().ack {
        return Ok(());
    }
    text.push_str(" ack ")?;
    push_number(
        numbering,
        initial_in(direction.back(), syns),
        segment.acknowledgement(),
        text,
    )
}

/// Adds what is told of a fragment, or of a datagram of another protocol.
fn push_datagram(datagram: &Ipv4View<'_>, text: &mut String) -> Result<(), AllocError>
    ensures { OnOk result (string_bytes text.new ≡ string_bytes text.old ++ datagram_text datagram.now) }
{
    write!(
        text,
        "ipv4 proto {} id {} off {} flags {} payload {}",
        datagram.protocol().0,
        datagram.identification(),
        8 * u32::from(datagram.offset()),
        fragment_name(datagram.dont_fragment(), datagram.more_fragments()),
        datagram.payload().len()
    )
}
