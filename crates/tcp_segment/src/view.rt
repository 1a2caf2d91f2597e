//! A segment that was received (RFC 9293 section 3.1).

ghost use Rattle.std.specs.Prelude.{◌≡◌, ◌+◌, ◌<◌, ◌≤◌, ◌^◌, IfOk, OnOk, IfErr, drop, length};
ghost use Rattle.std.specs.Option.{ok_or};
ghost use Rattle.byteorder.specs.Endian.{big_number};
ghost use Rattle.tcp_segment.specs.declared.fault.SegmentFault.TheVariants.{UpperHeader};
ghost use Rattle.tcp_segment.specs.Segment.{Segment, HasForm, IsParsed, mss_option_of, send_mss, smss_of, scale_option_of, shift_of, sack_permitted_of, blocks_of, span_of};
ghost use Rattle.tcp_segment.specs.Telling.{told_of};
ghost use Rattle.tcp_segment.specs.Reading.{header_in, offset_in, checksum_in};

use crate::blocks::Blocks;
use crate::fault::SegmentFault;
use crate::flags::{Flags, flags_of};
use crate::options::{self, Told};
use crate::seq::Seq;
use crate::sum::sum_between;
use crate::{DEFAULT_MSS, FIXED_LEN, LEAST_MSS, MAX_SHIFT, MSS};
use byteorder::{BigEndian, ByteOrder};
use ipv4::Addr;
use std::marker::Model;

/// A segment that was received and is well-formed, its octets lent from the frame. Its control bits stay one octet until they are
/// asked for: six values would be copied one by one wherever a segment goes.
#[derive(Drop)]
pub struct TcpView<'a> {
    source: u16,
    destination: u16,
    number: Seq,
    acknowledgement: Seq,
    control: u8,
    window: u16,
    urgent: u16,
    options: &'a [u8],
    payload: &'a [u8],
}

impl<'a> Model for TcpView<'a> {
    ghost use Rattle.std.specs.Prelude.{◌<◌, ◌^◌, [], length, unwrap_or, IsSome};
    ghost use Rattle.tcp_segment.specs.Segment.{Segment};
    ghost use Rattle.tcp_segment.specs.Reading.{options_behind, flags_in};

    ghost Value = { Segment };

    ghost view = { λ v. record {
      source = v.source;
      destination = v.destination;
      number = v.number.0;
      acknowledgement = v.acknowledgement.0;
      flags = flags_in v.control;
      window = v.window;
      urgent = v.urgent;
      options = unwrap_or (options_behind v.options.now 0) [];
      octets = v.payload.now;
    } };

    ghost invariant = { λ v. IsSome (options_behind v.options.now 0) × (length v.payload.now < 2 ^ 16) };
}

impl<'a> TcpView<'a> {
    /// The segment that these octets spell, which came from `src` for `dst`. Refuses octets that
    /// spell none with the first fault: one of the header first, whatever the checksum is (RFC 9293
    /// sections 3.1 and 3.2).
    pub fn parse(src: Addr, dst: Addr, segment: &'a [u8]) -> Result<TcpView<'a>, SegmentFault>
        ensures { IsParsed src dst segment.now result }
    {
        let view = TcpView::form(segment)?;
        if sum_between(src, dst, segment) != u16::MAX {
            return Err(SegmentFault::UpperSum);
        }
        Ok(view)
    }

    /// The segment whose form these octets have, whatever their checksum.
    fn form(segment: &'a [u8]) -> Result<TcpView<'a>, SegmentFault>
        ensures ok { IfOk result (λ view. HasForm view segment.now) }
        ensures len { OnOk result (length segment.now < 2 ^ 16) }
        ensures err { IfErr result (λ fault. (fault ≡ UpperHeader) × ((other : Segment) → HasForm other segment.now → ⊥)) }
    {
        let header = header_len(segment)?;
        let options = &segment[FIXED_LEN..header];
        options::told_by(options)?;
        Ok(TcpView {
            source: u16_at(segment, 0),
            destination: u16_at(segment, 2),
            number: Seq(u32_at(segment, 4)),
            acknowledgement: Seq(u32_at(segment, 8)),
            control: segment[13],
            window: u16_at(segment, 14),
            urgent: u16_at(segment, 18),
            options,
            payload: &segment[header..],
        })
    }

    /// The data offset in octets that have room for a header: its length in words of four octets (RFC 9293 section
    /// 3.1).
    pub fn offset_in(segment: &[u8]) -> u8
        requires { FIXED_LEN ≤ length segment.now }
        ensures value { result ≡ offset_in segment.now }
        ensures spelled { (view : Segment) (form : HasForm view segment.now) → result ≡ form.offset }
    {
        segment[12] >> 4
    }

    /// The checksum in octets that have room for a header, right or wrong (RFC 9293 section 3.1).
    pub fn checksum_in(segment: &[u8]) -> u16
        requires { FIXED_LEN ≤ length segment.now }
        ensures value { result ≡ checksum_in segment.now }
        ensures spelled { (view : Segment) (form : HasForm view segment.now) → result ≡ form.checksum }
    {
        u16_at(segment, 16)
    }

    /// The port that it comes from.
    pub fn source(&self) -> u16
        ensures { result ≡ self.now.source }
    {
        self.source
    }

    /// The port that it goes to.
    pub fn destination(&self) -> u16
        ensures { result ≡ self.now.destination }
    {
        self.destination
    }

    /// The number of its first octet, or of its SYN.
    pub fn number(&self) -> Seq
        ensures { result.0 ≡ self.now.number }
    {
        self.number
    }

    /// The number that the sender expects next, where ACK is set.
    pub fn acknowledgement(&self) -> Seq
        ensures { result.0 ≡ self.now.acknowledgement }
    {
        self.acknowledgement
    }

    /// Its control bits.
    pub fn flags(&self) -> Flags
        ensures { result ≡ self.now.flags }
    {
        flags_of(self.control)
    }

    /// The window field: how many octets the sender has room for; without SYN, where windows are scaled, how many units
    /// of its own (RFC 7323 section 2.3).
    pub fn window(&self) -> u16
        ensures { result ≡ self.now.window }
    {
        self.window
    }

    /// The urgent pointer.
    pub fn urgent(&self) -> u16
        ensures { result ≡ self.now.urgent }
    {
        self.urgent
    }

    /// The maximum segment size in the options, in octets (RFC 9293 section 3.7.1): that of the last such option, and none without
    /// SYN or without the option.
    pub fn mss_option(&self) -> Option<u16>
        ensures { result ≡ mss_option_of self.now }
    {
        self.told().mss
    }

    /// SendMSS, the maximum segment size that the sender of this segment takes, in octets (RFC 9293 section 3.7.1): `DEFAULT_MSS`
    /// without the option, and at least `LEAST_MSS`.
    pub fn send_mss(&self) -> u16
        ensures { result ≡ send_mss self.now }
    {
        self.mss_option().unwrap_or(DEFAULT_MSS).max(LEAST_MSS)
    }

    /// The most octets to send it in one segment (RFC 5681 section 2): SendMSS, and at most `MSS`.
    pub fn smss(&self) -> u16
        ensures { result ≡ smss_of self.now }
    {
        self.send_mss().min(MSS)
    }

    /// The shift in the window scale option (RFC 7323 section 2.2): that of the last such option, and none without SYN or
    /// without the option.
    pub fn scale_option(&self) -> Option<u8>
        ensures { result ≡ scale_option_of self.now }
    {
        self.told().scale
    }

    /// The shift of the windows that the sender of this segment tells where both sides have the option (RFC 7323 section 2.3): 0
    /// without the option, and at most `MAX_SHIFT`.
    pub fn shift(&self) -> u8
        ensures { result ≡ shift_of self.now }
    {
        self.scale_option().unwrap_or(0).min(MAX_SHIFT)
    }

    /// Whether its sender takes selective acknowledgements (RFC 2018 section 2): an option says so, and SYN is set.
    pub fn is_sack_permitted(&self) -> bool
        ensures { result ≡ sack_permitted_of self.now }
    {
        self.told().sacks
    }

    /// The blocks that its sender holds ahead of a gap (RFC 2018 section 3): those of the last option that reports some. One of a
    /// length that blocks don't have is passed over.
    pub fn blocks(&self) -> Blocks
        ensures { result ≡ blocks_of self.now }
    {
        self.told_by_options().blocks
    }

    /// What its options tell that counts with SYN alone.
    fn told(&self) -> Told
        ensures mss { result.mss ≡ mss_option_of self.now }
        ensures scale { result.scale ≡ scale_option_of self.now }
        ensures sacks { result.sacks ≡ sack_permitted_of self.now }
    {
        if self.flags().syn {
            self.told_by_options()
        } else {
            Told::NOTHING
        }
    }

    /// What its options tell.
    fn told_by_options(&self) -> Told
        ensures { result ≡ told_of self.now.options }
    {
        options::told_by(self.options).unwrap_or(Told::NOTHING)
    }

    /// Its own octets, a part of the frame that was parsed.
    pub fn payload(&self) -> &'a [u8]
        ensures octets { result.now ≡ self.now.octets }
        ensures bound { length result.now < 2 ^ 16 }
    {
        self.payload
    }

    /// Its length in sequence numbers: its octets, and one each for SYN and FIN (RFC 9293 section
    /// 3.4).
    pub fn span(&self) -> u32
        ensures value { result ≡ span_of self.now }
        ensures bound { result < 2 ^ 16 + 2 }
    {
        let flags = self.flags();
        self.payload.len() as u32 + u32::from(flags.syn) + u32::from(flags.fin)
    }
}

/// The length of the header, in octets, if it and its fixed fields are there.
fn header_len(segment: &[u8]) -> Result<usize, SegmentFault>
    ensures { result ≡ ok_or (header_in segment.now) UpperHeader }
{
    if segment.len() < FIXED_LEN || segment.len() > usize::from(u16::MAX) {
        return Err(SegmentFault::UpperHeader);
    }
    let header = 4 * usize::from(TcpView::offset_in(segment));
    if header < FIXED_LEN || segment.len() < header {
        return Err(SegmentFault::UpperHeader);
    }
    Ok(header)
}

/// The number of two octets at a place of a segment, in network order.
fn u16_at(segment: &[u8], at: usize) -> u16
    requires { at + 2 ≤ length segment.now }
    ensures { result ≡ big_number 2 (drop at segment.now) }
{
    BigEndian::read_u16(&segment[at..])
}

/// The number of four octets at a place of a segment, in network order.
fn u32_at(segment: &[u8], at: usize) -> u32
    requires { at + 4 ≤ length segment.now }
    ensures { result ≡ big_number 4 (drop at segment.now) }
{
    BigEndian::read_u32(&segment[at..])
}
