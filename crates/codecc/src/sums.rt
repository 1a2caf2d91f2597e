//! The Internet checksum (RFC 1071).

ghost use Rattle.std.specs.Prelude.{◌≡◌};
ghost use Rattle.inet_sum.specs.Sum.{sum_of, checksum_of};

/// The one's complement sum of the octets, an odd last one padded with zero: 0xFFFF where they have a right checksum among them.
#[unsafe(no_mangle)]
pub extern "C" fn codec_sum(octets: &[u8]) -> u16
    ensures { result ≡ sum_of octets.now }
{
    inet_sum::sum(octets)
}

/// The checksum of the octets: the complement of their sum.
#[unsafe(no_mangle)]
pub extern "C" fn codec_checksum(octets: &[u8]) -> u16
    ensures { result ≡ checksum_of octets.now }
{
    inet_sum::checksum(octets)
}
