//! The resets that answer segments (RFC 9293 section 3.5.2).

ghost use Rattle.std.specs.Prelude.{◌≡◌};
ghost use Rattle.sockets.specs.Replies.{reset_at_ack, reset_past, answer_to, answer_at_listener};

use tcp_segment::{Blocks, Flags, Head, Seq, TcpView};

/// `<SEQ=SEG.ACK><CTL=RST>`, which answers a segment with ACK.
pub(crate) fn reset_at_ack(segment: &TcpView<'_>) -> Head
    ensures { result ≡ reset_at_ack segment.now }
{
    Head {
        source: segment.destination(),
        destination: segment.source(),
        number: segment.acknowledgement(),
        acknowledgement: Seq(0),
        flags: Flags {
            rst: true,
            ..Flags::default()
        },
        window: 0,
        scales: false,
        sacks: false,
        blocks: Blocks::NONE,
    }
}

/// `<SEQ=0><ACK=SEG.SEQ+SEG.LEN><CTL=RST,ACK>`, which answers a segment without ACK.
fn reset_past(segment: &TcpView<'_>) -> Head
    ensures { result ≡ reset_past segment.now }
{
    Head {
        source: segment.destination(),
        destination: segment.source(),
        number: Seq(0),
        acknowledgement: segment.number() + segment.span(),
        flags: Flags {
            rst: true,
            ack: true,
            ..Flags::default()
        },
        window: 0,
        scales: false,
        sacks: false,
        blocks: Blocks::NONE,
    }
}

/// What answers a segment for no connection and no listener: nothing answers a reset.
pub(crate) fn answer_to(segment: &TcpView<'_>) -> Option<Head>
    ensures { result ≡ answer_to segment.now }
{
    let flags = segment.flags();
    if flags.rst {
        return None;
    }
    if flags.ack {
        return Some(reset_at_ack(segment));
    }
    Some(reset_past(segment))
}

/// What answers a segment for a listener that opens no connection there.
pub(crate) fn answer_at_listener(segment: &TcpView<'_>) -> Option<Head>
    ensures { result ≡ answer_at_listener segment.now }
{
    let flags = segment.flags();
    if flags.rst || !flags.ack {
        return None;
    }
    Some(reset_at_ack(segment))
}
