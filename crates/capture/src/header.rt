//! The header that a capture begins with.

ghost use Rattle.std.specs.Prelude.{◌≡◌};
ghost use Rattle.capture.specs.Capture.{our_header_octets};
ghost use Rattle.capture.specs.Reading.{header_in, most_octets};

use crate::fault::HeaderFault;
use crate::format::{Format, Order};
use crate::record::MOST_OCTETS;

/// The length of a capture's header, in octets.
pub const HEADER_LEN: usize = 24;

/// The version of the format: this before the point, and `MINOR` behind it.
const MAJOR: u16 = 2;

const MINOR: u16 = 4;

/// The link type of Ethernet.
const ETHERNET: u32 = 1;

/// The greatest snapshot length that libpcap takes as told.
const MOST_TOLD: u32 = 0x7fff_ffff;

/// The header that each of our captures begins with: the lowest octet of a number first, microseconds, version 2.4, a
/// snapshot length of 262,144 octets, Ethernet.
pub fn file_head() -> [u8; HEADER_LEN]
    ensures { result ≡ our_header_octets }
{
    [
        0xd4, 0xc3, 0xb2, 0xa1, 2, 0, 4, 0, 0, 0, 0, 0, 0, 0, 0, 0, 0, 0, 4, 0, 1, 0, 0, 0,
    ]
}

/// What the header of a capture of Ethernet frames tells.
#[derive(Clone, Copy, Debug, PartialEq, Eq)]
pub struct Header {
    /// How its numbers are written.
    pub format: Format,
    /// The snapshot length: how many octets of a frame were included at most.
    pub snaplen: u32,
}

impl Header {
    /// The header that these octets begin with. Refuses octets that begin with none that is read by the first fault: too few
    /// octets, another magic number, another version, another link type. The correction for the time zone and the accuracy
    /// of the moments are passed over, as libpcap does.
    pub fn parse(octets: &[u8]) -> Result<Header, HeaderFault>
        ensures { result ≡ header_in octets.now }
    {
        let missing = HEADER_LEN.saturating_sub(octets.len());
        if octets.len() < 4 {
            return Err(HeaderFault::Short(missing));
        }
        let magic = Order::Little.u32_at(octets);
        let Some(format) = Format::of_magic(magic) else {
            return Err(HeaderFault::NotACapture(magic));
        };
        if octets.len() < HEADER_LEN {
            return Err(HeaderFault::Short(missing));
        }
        let major = format.order.u16_at(&octets[4..]);
        let minor = format.order.u16_at(&octets[6..]);
        if major != MAJOR || minor != MINOR {
            return Err(HeaderFault::Version(major, minor));
        }
        let link_type = format.order.u32_at(&octets[20..]);
        if link_type != ETHERNET {
            return Err(HeaderFault::LinkType(link_type));
        }
        Ok(Header {
            format,
            snaplen: format.order.u32_at(&octets[16..]),
        })
    }

    /// How many octets of a record are read at most: the snapshot length, or 262,144 where that is 0 or 2^31 and more, as
    /// libpcap takes it.
    pub(crate) fn most_octets(&self) -> usize
        ensures { result ≡ most_octets self.now }
    {
        if self.snaplen == 0 || self.snaplen > MOST_TOLD {
            MOST_OCTETS
        } else {
            self.snaplen as usize
        }
    }
}
