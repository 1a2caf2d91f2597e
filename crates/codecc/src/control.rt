//! Messages of ICMP (RFC 792).

ghost use Rattle.std.specs.Prelude.{◌≡◌, true};
ghost use Rattle.icmp.specs.Message.{IsParsed};
ghost use Rattle.codecc.specs.Calls.{Parses, icmp_fault, emitted, after_emit};
ghost use Rattle.codecc.specs.Control.{told_message, told_quote, message_len, message_header, written_message};

use crate::convert::{NO_ROOM, has_room, number_of, told};
use crate::types::{CodecIcmp, CodecQuote};
use icmp::{HEADER_LEN, IcmpFault, IcmpView, Quote};

/// Reads the header of a message into `icmp`, and answers 0; or -7 where there are fewer than 8 octets, and else -8 where the checksum is wrong.
#[unsafe(no_mangle)]
pub extern "C" fn codec_icmp_parse(octets: &[u8], icmp: &mut CodecIcmp) -> i64
    ensures { Parses (IsParsed octets.now) icmp_fault told_message result icmp.old icmp.new }
{
    match IcmpView::parse(octets) {
        Ok(view) => {
            *icmp = CodecIcmp {
                payload_len: view.payload().len(),
                quote: told_quote(view.quote()),
                checksum: view.checksum(),
                identifier: view.identifier(),
                number: view.number(),
                kind: view.kind().0,
                code: view.code(),
            };
            0
        }
        Err(IcmpFault::UpperHeader) => -7,
        Err(IcmpFault::UpperSum) => -8,
    }
}

/// A quote as it is told; zeros where there is none.
fn told_quote(quote: Option<Quote>) -> CodecQuote
    ensures { result ≡ told_quote quote }
{
    match quote {
        Some(quote) => CodecQuote {
            source: number_of(quote.source.addr),
            destination: number_of(quote.destination.addr),
            number: quote.number,
            source_port: quote.source.port,
            destination_port: quote.destination.port,
            protocol: quote.protocol.0,
            is_there: 1,
        },
        None => CodecQuote {
            source: 0,
            destination: 0,
            number: 0,
            source_port: 0,
            destination_port: 0,
            protocol: 0,
            is_there: 0,
        },
    }
}

/// Writes the header into the first 8 octets of `out`, before the data, which stand there already, with the checksum that it computes, and
/// answers the length of the message, in octets; or -12 where `out` has fewer.
#[unsafe(no_mangle)]
pub extern "C" fn codec_icmp_emit(icmp: &CodecIcmp, out: &mut [u8]) -> i64
    ensures answer { result ≡ emitted true (message_len icmp.now) out.old }
    ensures octets { out.new ≡ after_emit true (message_len icmp.now) (written_message icmp.now out.old) out.old }
{
    if !has_room(HEADER_LEN, icmp.payload_len, out) {
        return NO_ROOM;
    }
    let len = HEADER_LEN + icmp.payload_len;
    out[..HEADER_LEN].copy_from_slice(&header(icmp, 0));
    let checksum = inet_sum::checksum(&out[..len]);
    out[..HEADER_LEN].copy_from_slice(&header(icmp, checksum));
    told(len)
}

/// The header with this checksum.
fn header(icmp: &CodecIcmp, checksum: u16) -> [u8; HEADER_LEN]
    ensures { result ≡ message_header icmp.now checksum }
{
    let [checksum_high, checksum_low] = checksum.to_be_bytes();
    let [identifier_high, identifier_low] = icmp.identifier.to_be_bytes();
    let [number_high, number_low] = icmp.number.to_be_bytes();
    [
        icmp.kind,
        icmp.code,
        checksum_high,
        checksum_low,
        identifier_high,
        identifier_low,
        number_high,
        number_low,
    ]
}
