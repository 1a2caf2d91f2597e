//! What stands before a payload.

ghost use Rattle.std.specs.Prelude.{◌≡◌, ◌+◌, ◌≤◌, ◌++◌, length, take, drop, max};
ghost use Rattle.std.specs.List.{slice_range};
ghost use Rattle.ether.specs.Frame.{head_octets, spelling, sent};

use crate::mac::Mac;

/// The length of a head, in octets (RFC 894).
pub const HEADER_LEN: usize = 14;
/// The octets of a frame at most: a head, and the greatest payload.
pub const FRAME_MAX: usize = 1_514;
/// The octets of a payload at most (RFC 894).
pub const MOST_PAYLOAD: usize = 1_500;
/// The octets of a payload at least; a shorter one is padded with zeros (RFC 894).
pub const LEAST_PAYLOAD: usize = 46;

/// The type of a frame that carries IPv4 (RFC 894).
pub const ETHERTYPE_IPV4: u16 = 0x0800;
/// The type of a frame that carries ARP (RFC 826).
pub const ETHERTYPE_ARP: u16 = 0x0806;

/// The head of a frame.
#[derive(Clone, Copy, PartialEq, Eq, Debug)]
pub struct Head {
    /// The interface that the frame is for.
    pub destination: Mac,
    /// The interface that it comes from.
    pub source: Mac,
    /// What the payload is, as `ETHERTYPE_IPV4` and `ETHERTYPE_ARP`.
    pub kind: u16,
}

impl Head {
    /// Writes the head before a payload of so many octets, which stands at `out[14..]` already, pads a short one with
    /// zeros, and answers the length of the frame, in octets. What stands behind it in `out` stays.
    pub fn emit(&self, payload_len: usize, out: &mut [u8; FRAME_MAX]) -> usize
        requires { payload_len ≤ MOST_PAYLOAD }
        ensures len { result ≡ HEADER_LEN + max payload_len LEAST_PAYLOAD }
        ensures octets { out.new ≡ spelling (sent self.now (slice_range out.old 14 (14 + payload_len))) ++ drop result out.old }
    {
        let end = HEADER_LEN + payload_len.max(LEAST_PAYLOAD);
        out[HEADER_LEN + payload_len..end].fill(0);
        out[..HEADER_LEN].copy_from_slice(&self.octets());
        end
    }

    /// The octets of the head.
    fn octets(&self) -> [u8; HEADER_LEN]
        ensures { result ≡ head_octets self.now.destination self.now.source self.now.kind }
    {
        let [d0, d1, d2, d3, d4, d5] = self.destination.0;
        let [s0, s1, s2, s3, s4, s5] = self.source.0;
        let [high, low] = self.kind.to_be_bytes();
        [d0, d1, d2, d3, d4, d5, s0, s1, s2, s3, s4, s5, high, low]
    }
}
