//! The counts of frames that were dropped, by the cause.

ghost use Rattle.std.specs.Prelude.{◌≡◌};
ghost use Rattle.counters.specs.Counting.{after_drop, no_drops};

use crate::counters::raise;
use host::DropCause;

/// How many frames were dropped, by the cause. Those for want of room are among `Lacks`.
#[derive(Clone, Copy, Default, PartialEq, Eq, Debug)]
pub struct Drops {
    /// `DropCause::Short`: fewer octets than a head, or more than a frame may have.
    pub short: u64,
    /// `DropCause::OtherMac`: for another interface.
    pub other_mac: u64,
    /// `DropCause::OtherType`: neither IPv4 nor ARP.
    pub other_type: u64,
    /// `DropCause::IpHeader`: no header of IPv4.
    pub ip_header: u64,
    /// `DropCause::IpSum`: a wrong checksum of IPv4.
    pub ip_sum: u64,
    /// `DropCause::OtherAddress`: for another host, or from no other host.
    pub other_address: u64,
    /// `DropCause::UpperHeader`: no header of ARP, ICMP, UDP or TCP.
    pub upper_header: u64,
    /// `DropCause::UpperSum`: a wrong checksum of ICMP, UDP or TCP.
    pub upper_sum: u64,
    /// `DropCause::Fragment`: a fragment of anything but a UDP datagram.
    pub fragment: u64,
}

impl Drops {
    /// All at 0.
    pub(crate) fn new() -> Drops
        ensures { result ≡ no_drops }
    {
        Drops {
            short: 0,
            other_mac: 0,
            other_type: 0,
            ip_header: 0,
            ip_sum: 0,
            other_address: 0,
            upper_header: 0,
            upper_sum: 0,
            fragment: 0,
        }
    }

    /// Counts a frame that was dropped for this cause; nothing where that is the want of room.
    pub(crate) fn count(&mut self, cause: DropCause)
        ensures { self.new ≡ after_drop cause self.old }
    {
        match cause {
            DropCause::Short => raise(&mut self.short, 1),
            DropCause::OtherMac => raise(&mut self.other_mac, 1),
            DropCause::OtherType => raise(&mut self.other_type, 1),
            DropCause::IpHeader => raise(&mut self.ip_header, 1),
            DropCause::IpSum => raise(&mut self.ip_sum, 1),
            DropCause::OtherAddress => raise(&mut self.other_address, 1),
            DropCause::UpperHeader => raise(&mut self.upper_header, 1),
            DropCause::UpperSum => raise(&mut self.upper_sum, 1),
            DropCause::Fragment => raise(&mut self.fragment, 1),
            DropCause::NoRoom => {}
        }
    }
}
