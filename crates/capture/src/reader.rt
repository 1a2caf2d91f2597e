//! Reading a capture, record by record.

ghost use Rattle.std.specs.Prelude.{◌≡◌};
ghost use Rattle.capture.specs.Reading.{answer_in, opened, rest_in};

use crate::fault::{HeaderFault, RecordFault};
use crate::header::{HEADER_LEN, Header};
use crate::record::{MOST_OCTETS, RECORD_HEAD_LEN, RecordView};
use std::marker::Model;

/// A capture that is read: its header, and the octets that are left.
#[derive(Drop)]
pub struct Reader<'a> {
    header: Header,
    rest: &'a [u8],
}

impl<'a> Model for Reader<'a> {
    ghost use Rattle.capture.specs.Reading.{Unread};

    ghost Value = { Unread };

    ghost view = { λ r. record { header = r.header; octets = r.rest.now } };
}

impl<'a> Reader<'a> {
    /// Begins to read a capture. Refuses octets that do not begin with the header of one, as `Header::parse` does.
    pub fn new(octets: &'a [u8]) -> Result<Reader<'a>, HeaderFault>
        ensures { result ≡ opened octets.now }
    {
        let header = Header::parse(octets)?;
        Ok(Reader {
            header,
            rest: &octets[HEADER_LEN..],
        })
    }

    /// What the capture's header tells.
    pub fn header(&self) -> Header
        ensures { result ≡ self.now.header }
    {
        self.header
    }

    /// The next record; `None` where the last one ended with the capture, and behind a fault. Refuses a record that is cut, and
    /// one of more than 262,144 octets; of one that is longer than the snapshot length it gives as many octets as that, as
    /// libpcap does. A fault is the last answer but `None`.
    #[tactic(auto, using(std::proofs::lemmas::List::take_min))]
    pub fn next_record(&mut self) -> Option<Result<RecordView<'a>, RecordFault>>
        ensures answer { result ≡ answer_in self.old.header self.old.octets }
        ensures rest { self.new ≡ record self.old { octets = rest_in self.old.header self.old.octets } }
    {
        let octets = self.rest;
        if octets.is_empty() {
            return None;
        }
        // Where this is refused nothing behind it can be told apart, so nothing is left to read.
        self.rest = &octets[octets.len()..];
        if octets.len() < RECORD_HEAD_LEN {
            return Some(Err(RecordFault::CutHead(RECORD_HEAD_LEN - octets.len())));
        }
        let order = self.header.format.order;
        let included = order.u32_at(&octets[8..]);
        if included as usize > MOST_OCTETS {
            return Some(Err(RecordFault::TooLong(included)));
        }
        let end = RECORD_HEAD_LEN + included as usize;
        if octets.len() < end {
            return Some(Err(RecordFault::CutOctets(end - octets.len())));
        }
        self.rest = &octets[end..];
        let whole = &octets[RECORD_HEAD_LEN..end];
        let shown = self.header.most_octets().min(whole.len());
        Some(Ok(RecordView {
            seconds: order.u32_at(octets),
            nanoseconds: self
                .header
                .format
                .fraction
                .nanoseconds(order.u32_at(&octets[4..])),
            original: order.u32_at(&octets[12..]),
            octets: &whole[..shown],
        }))
    }
}
