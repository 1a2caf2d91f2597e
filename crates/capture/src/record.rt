//! The records of a capture: what stands before a frame's octets, and what is read of one.

ghost use Rattle.std.specs.Prelude.{◌≡◌, ◌≤◌, ◌+◌, ℕ, List, length};
ghost use Rattle.capture.specs.declared.format.Order.TheVariants.{Little};
ghost use Rattle.capture.specs.Capture.{entry_head, entry_of};
ghost use Rattle.capture.specs.Reading.{moment_of};

use clock::Moment;
use std::marker::Model;

/// The length of what stands before a record's octets, in octets.
pub const RECORD_HEAD_LEN: usize = 16;

/// The octets of a record at most, those of libpcap's greatest snapshot length.
pub const MOST_OCTETS: usize = 262_144;

/// How many seconds the format can tell apart: its seconds have 32 bits, and begin again at 0.
const SECONDS_TOLD: u64 = 1 << 32;

/// How many lengths the format can tell apart.
const LENGTHS_TOLD: usize = 1 << 32;

/// What stands before the octets of a frame that went out at this moment, and has so many octets: seconds modulo 2^32,
/// microseconds, and the length twice, modulo 2^32, the lowest octet first. Only a frame of `MOST_OCTETS` at most is read back.
pub fn record_head(moment: Moment, len: usize) -> [u8; RECORD_HEAD_LEN]
    ensures { (octets : List ℕ) → length octets ≡ len → result ≡ entry_head Little (entry_of (record { moment = moment; octets = octets })) }
{
    head_of(moment, (len % LENGTHS_TOLD) as u32)
}

/// The same of a length of 32 bits.
fn head_of(moment: Moment, len: u32) -> [u8; RECORD_HEAD_LEN]
    ensures { (octets : List ℕ) → length octets ≡ len → result ≡ entry_head Little (entry_of (record { moment = moment; octets = octets })) }
{
    let seconds = (moment.0 / 1_000 % SECONDS_TOLD) as u32;
    let microseconds = (moment.0 % 1_000) as u32 * 1_000;
    let [s0, s1, s2, s3] = seconds.to_le_bytes();
    let [m0, m1, m2, m3] = microseconds.to_le_bytes();
    let [l0, l1, l2, l3] = len.to_le_bytes();
    [
        s0, s1, s2, s3, m0, m1, m2, m3, l0, l1, l2, l3, l0, l1, l2, l3,
    ]
}

/// A record that was read, its octets lent from the capture's.
#[derive(Drop)]
pub struct RecordView<'a> {
    pub(crate) seconds: u32,
    pub(crate) nanoseconds: u64,
    pub(crate) original: u32,
    pub(crate) octets: &'a [u8],
}

impl<'a> Model for RecordView<'a> {
    ghost use Rattle.std.specs.Prelude.{◌<◌, ◌*◌, ◌^◌};
    ghost use Rattle.capture.specs.Reading.{Record};

    ghost Value = { Record };

    ghost view = { λ v. record { seconds = v.seconds; nanoseconds = v.nanoseconds; original = v.original; octets = v.octets.now } };

    ghost invariant = { λ v. v.nanoseconds < 1000 * 2 ^ 32 };
}

impl<'a> RecordView<'a> {
    /// The second of the record's moment, as the capture tells it.
    pub fn seconds(&self) -> u32
        ensures { result ≡ self.now.seconds }
    {
        self.seconds
    }

    /// The nanoseconds of that second, 10^9 or more where the capture's fraction is past a second.
    pub fn nanoseconds(&self) -> u64
        ensures { result ≡ self.now.nanoseconds }
    {
        self.nanoseconds
    }

    /// The record's moment, in milliseconds; what is left of a millisecond is dropped.
    pub fn moment(&self) -> Moment
        ensures { result ≡ moment_of self.now }
    {
        Moment(u64::from(self.seconds) * 1_000 + self.nanoseconds / 1_000_000)
    }

    /// The length that the frame had on the link, in octets; fewer or more than these may be included.
    pub fn original(&self) -> u32
        ensures { result ≡ self.now.original }
    {
        self.original
    }

    /// The octets of the frame that are included, a part of the capture that is read.
    pub fn octets(&self) -> &'a [u8]
        ensures { result.now ≡ self.now.octets }
    {
        self.octets
    }
}
