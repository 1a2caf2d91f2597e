//! The control bits of a header (RFC 9293 section 3.1).

ghost use Rattle.std.specs.Prelude.{◌≡◌, ◌≤◌};
ghost use Rattle.tcp_segment.specs.Segment.{bit, control_bits};
ghost use Rattle.tcp_segment.specs.Reading.{flags_in};

const FIN: u8 = 0x01;

const SYN: u8 = 0x02;

const RST: u8 = 0x04;

const PSH: u8 = 0x08;

const ACK: u8 = 0x10;

const URG: u8 = 0x20;

/// The control bits of a segment (RFC 9293 section 3.1).
#[derive(Clone, Copy, Debug, Default, PartialEq, Eq)]
pub struct Flags {
    /// No more octets come from the sender.
    pub fin: bool,
    /// The sequence numbers are to be synchronised.
    pub syn: bool,
    /// The connection is to be reset.
    pub rst: bool,
    /// The octets are to be pushed to the receiver.
    pub psh: bool,
    /// The acknowledgement field counts.
    pub ack: bool,
    /// The urgent pointer counts.
    pub urg: bool,
}

/// The control bits of a header's fourteenth octet, the two reserved bits above them left out.
pub(crate) fn flags_of(octet: u8) -> Flags
    ensures { result ≡ flags_in octet }
{
    Flags {
        fin: octet & FIN != 0,
        syn: octet & SYN != 0,
        rst: octet & RST != 0,
        psh: octet & PSH != 0,
        ack: octet & ACK != 0,
        urg: octet & URG != 0,
    }
}

/// The octet of the control bits.
pub(crate) fn octet_of(flags: Flags) -> u8
    ensures { result ≡ control_bits flags }
{
    bit(flags.fin, FIN)
        + bit(flags.syn, SYN)
        + bit(flags.rst, RST)
        + bit(flags.psh, PSH)
        + bit(flags.ack, ACK)
        + bit(flags.urg, URG)
}

/// What a control bit is worth where it is set, and else 0.
fn bit(set: bool, worth: u8) -> u8
    ensures value { result ≡ bit set worth }
    ensures bound { result ≤ worth }
{
    if set { worth } else { 0 }
}
