//! What was gathered of a datagram that is being put together.

ghost use Rattle.std.specs.Prelude.{◌≡◌, ◌≤◌, None, [], IfOk, IsTrue};
ghost use Rattle.ipv4.specs.declared.limits.TheConstants.{MAX_PAYLOAD};
ghost use Rattle.reassembly.specs.Fragments.{begin_of, end_of};
ghost use Rattle.reassembly.specs.Octets.{laid, is_covered, filled};
ghost use Rattle.reassembly.specs.Reassembly.{quote_after, quoted};

use crate::assembled::Whole;
use crate::buffer::DataBuffer;
use crate::fragment;
use crate::quote::Quote;
use ipv4::Ipv4View;
use std::alloc::{AllocError, Global};

/// What was gathered of a datagram that is being put together.
#[derive(Drop)]
pub(crate) struct Gathered {
    /// The octets of its payload, as far as fragments came.
    pub(crate) octets: DataBuffer,
    /// That of the fragment zero that came last.
    quote: Option<Quote>,
}

impl Gathered {
    /// Nothing, with room for so many octets.
    pub(crate) fn new(alloc: Global, room: usize) -> Result<Gathered, AllocError>
        requires { room ≤ MAX_PAYLOAD }
        ensures { IfOk result (λ gathered. gathered ≡ record { octets = record { room = room; octets = [] }; quote = None }) }
    {
        Ok(Gathered {
            octets: DataBuffer::new(alloc, room)?,
            quote: None,
        })
    }

    /// Forgets what there was.
    pub(crate) fn clear(&mut self)
        ensures { self.new ≡ record { octets = record self.old.octets { octets = [] }; quote = None } }
    {
        self.octets.clear();
        self.quote = None;
    }

    /// Lays a fragment's octets over those that stand there. Of a fragment zero it keeps what is quoted, in place of that of one
    /// that came before.
    pub(crate) fn add(&mut self, fragment: &Ipv4View)
        requires { end_of fragment.now ≤ self.old.octets.room }
        ensures octets { self.new.octets ≡ record self.old.octets { octets = laid (begin_of fragment.now) fragment.now.payload self.old.octets.octets } }
        ensures quote { self.new.quote ≡ quote_after fragment.now self.old.quote }
    {
        self.octets
            .lay(fragment::begin(fragment), fragment.payload());
        if fragment.offset() == 0 {
            self.quote = Some(Quote::of(fragment));
        }
    }

    /// Lends what makes a whole datagram.
    pub(crate) fn whole(&self) -> Whole<'_>
        requires { IsTrue (is_covered self.now.octets.octets) }
        ensures octets { result.octets.now ≡ filled self.now.octets.octets }
        ensures quote { result.quote.now ≡ quoted self.now.quote }
    {
        let quote: &[u8] = match &self.quote {
            Some(quote) => quote.octets(),
            None => &[],
        };
        Whole {
            octets: self.octets.octets(),
            quote,
        }
    }

    /// Takes out what is quoted.
    pub(crate) fn take_quote(&mut self) -> Option<Quote>
        ensures quote { result ≡ self.old.quote }
        ensures octets { self.new.octets ≡ self.old.octets }
    {
        self.quote.take()
    }
}
