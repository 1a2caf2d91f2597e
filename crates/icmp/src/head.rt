//! What stands before the data of a message that is sent.

ghost use Rattle.std.specs.Prelude.{◌≡◌, ◌+◌, ◌≤◌, [], ◌++◌, length, drop, slice_range};
ghost use Rattle.icmp.specs.Message.{spelling};
ghost use Rattle.icmp.specs.Sent.{sent, with_fields};

/// The length of what stands before the data, in octets (RFC 792).
pub const HEADER_LEN: usize = 8;

/// What stands before the data, but for the checksum.
#[derive(Clone, Copy)]
pub(crate) struct Head {
    pub(crate) kind: u8,
    pub(crate) code: u8,
    pub(crate) identifier: u16,
    pub(crate) number: u16,
}

impl Head {
    /// Writes the head before data of so many octets, which stand at `out[8..]` already, and answers the length of the
    /// message, in octets. What stands behind it in `out` stays.
    pub(crate) fn emit(&self, payload_len: usize, out: &mut [u8]) -> usize
        requires { 8 + payload_len ≤ length out.old }
        ensures len { result ≡ 8 + payload_len }
        ensures octets { out.new ≡ spelling (sent self.now (slice_range out.old 8 result)) ++ drop result out.old }
    {
        let len = HEADER_LEN + payload_len;
        self.write(0, out);
        let checksum = inet_sum::checksum(&out[..len]);
        self.write(checksum, out);
        len
    }

    /// Writes the head with this checksum.
    fn write(&self, checksum: u16, out: &mut [u8])
        requires { 8 ≤ length out.old }
        ensures { out.new ≡ spelling (with_fields self.now checksum []) ++ drop 8 out.old }
    {
        let [checksum_high, checksum_low] = checksum.to_be_bytes();
        let [identifier_high, identifier_low] = self.identifier.to_be_bytes();
        let [number_high, number_low] = self.number.to_be_bytes();
        out[..HEADER_LEN].copy_from_slice(&[
            self.kind,
            self.code,
            checksum_high,
            checksum_low,
            identifier_high,
            identifier_low,
            number_high,
            number_low,
        ]);
    }
}
