//! A message that was received (RFC 792).

ghost use Rattle.std.specs.Prelude.{◌≡◌, ◌+◌, ◌≤◌, ◌↔◌, ◌++◌, IsTrue, IfSome, IfNone, length, drop};
ghost use Rattle.icmp.specs.declared.error.Reason.{Reason};
ghost use Rattle.icmp.specs.declared.quote.Quote.{Quote};
ghost use Rattle.icmp.specs.Errors.{kind_of, code_of};
ghost use Rattle.icmp.specs.Message.{IsMessage, IsParsed, IsEchoRequest, spelling};
ghost use Rattle.icmp.specs.Quotes.{Quotes};
ghost use Rattle.icmp.specs.Reading.{quote_in};
ghost use Rattle.icmp.specs.Sent.{reply_to};

use crate::error::Reason;
use crate::fault::IcmpFault;
use crate::head::HEADER_LEN;
use crate::kind::Kind;
use crate::quote::Quote;
use crate::reply::emit_echo_reply;
use byteorder::{BigEndian, ByteOrder};
use std::marker::Model;

/// A message that was received and whose checksum is right, its octets lent from the frame.
#[derive(Drop)]
pub struct IcmpView<'a> {
    octets: &'a [u8],
}

impl<'a> Model for IcmpView<'a> {
    ghost use Rattle.icmp.specs.Message.{Message};
    ghost use Rattle.icmp.specs.Reading.{message_of, AreRead};

    ghost Value = { Message };

    ghost view = { λ v. message_of v.octets.now };

    ghost invariant = { λ v. AreRead v.octets.now };
}

impl<'a> IcmpView<'a> {
    /// The message that these octets spell, all that a datagram carries. Refuses octets that spell none with the first
    /// fault: fewer than 8 octets, then a wrong checksum (RFC 792).
    pub fn parse(octets: &'a [u8]) -> Result<IcmpView<'a>, IcmpFault>
        ensures { IsParsed octets.now result }
    {
        if octets.len() < HEADER_LEN {
            return Err(IcmpFault::UpperHeader);
        }
        let view = IcmpView { octets };
        if inet_sum::sum(octets) == u16::MAX {
            Ok(view)
        } else {
            Err(IcmpFault::UpperSum)
        }
    }

    /// What the message is for.
    pub fn kind(&self) -> Kind
        ensures { result.0 ≡ self.now.kind }
    {
        Kind(self.octets[0])
    }

    /// What its type says more closely.
    pub fn code(&self) -> u8
        ensures { result ≡ self.now.code }
    {
        self.octets[1]
    }

    /// The checksum of the message.
    pub fn checksum(&self) -> u16
        ensures { result ≡ self.now.checksum }
    {
        BigEndian::read_u16(&self.octets[2..])
    }

    /// Which echoes belong together: the first two of the four octets behind the checksum.
    pub fn identifier(&self) -> u16
        ensures { result ≡ self.now.identifier }
    {
        BigEndian::read_u16(&self.octets[4..])
    }

    /// Which echo of them it is: the last two of these four octets.
    pub fn number(&self) -> u16
        ensures { result ≡ self.now.number }
    {
        BigEndian::read_u16(&self.octets[6..])
    }

    /// Its data, a part of the frame that was parsed.
    pub fn payload(&self) -> &'a [u8]
        ensures octets { result.now ≡ self.now.payload }
        ensures fields { IsMessage self.now }
    {
        &self.octets[HEADER_LEN..]
    }

    /// Whether it is an echo request, which a host answers by a reply (RFC 1122 section 3.2.2.6).
    pub fn is_echo_request(&self) -> bool
        ensures { IsTrue result ↔ IsEchoRequest self.now }
    {
        self.kind() == Kind::ECHO && self.code() == 0
    }

    /// What it reports, where its type and code are those of an error that this stack has a name for.
    pub fn reason(&self) -> Option<Reason>
        ensures some { IfSome result (λ reason. (kind_of reason ≡ self.now.kind) × (code_of reason ≡ self.now.code)) }
        ensures none { IfNone result ((reason : Reason) → kind_of reason ≡ self.now.kind → code_of reason ≡ self.now.code → ⊥) }
    {
        Reason::with_numbers(self.kind(), self.code())
    }

    /// What its data quotes of a datagram, where they begin with a whole header of IPv4 and 8 octets behind it. The header's
    /// checksum is not looked at.
    pub fn quote(&self) -> Option<Quote>
        ensures value { result ≡ quote_in self.now.payload }
        ensures some { IfSome result (λ quote. Quotes quote self.now.payload) }
        ensures none { IfNone result ((quote : Quote) → Quotes quote self.now.payload → ⊥) }
    {
        Quote::read(self.payload())
    }

    /// Writes the reply to this echo request and answers its length, in octets: that of the request. It has the type of a
    /// reply and the request's identifier, number and data (RFC 792). What stands behind it in `out` stays.
    pub fn emit_reply(&self, out: &mut [u8]) -> usize
        requires { 8 + length self.now.payload ≤ length out.old }
        ensures len { result ≡ 8 + length self.now.payload }
        ensures octets { out.new ≡ spelling (reply_to self.now) ++ drop result out.old }
    {
        let payload = self.payload();
        out[HEADER_LEN..HEADER_LEN + payload.len()].copy_from_slice(payload);
        emit_echo_reply(self.identifier(), self.number(), payload.len(), out)
    }
}
