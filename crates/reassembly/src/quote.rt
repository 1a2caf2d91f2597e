//! What an error message quotes.

ghost use Rattle.std.specs.Prelude.{◌≡◌};
ghost use Rattle.reassembly.specs.Fragments.{quote_of};

use arrayvec::ArrayVec;
use ipv4::{ERROR_QUOTE, Ipv4View};
use std::marker::Model;

/// How many octets of a datagram's data an error message quotes (RFC 792).
const DATA: usize = 8;

/// What an error message quotes of a datagram: its header and the first eight octets of its data, fewer where there are
/// fewer (RFC 792).
#[derive(Drop)]
pub struct Quote {
    octets: ArrayVec<u8, ERROR_QUOTE>,
}

impl Model for Quote {
    ghost use Rattle.std.specs.Prelude.{List, ℕ};

    ghost Value = { List ℕ };

    ghost view = { λ q. q.octets.items };
}

impl Quote {
    /// What is quoted of a fragment.
    pub(crate) fn of(fragment: &Ipv4View) -> Quote
        ensures { result ≡ quote_of fragment.now }
    {
        let payload = fragment.payload();
        let data = &payload[..payload.len().min(DATA)];
        let mut octets = ArrayVec::new();
        let _ = octets.try_extend_from_slice(fragment.header());
        let _ = octets.try_extend_from_slice(data);
        Quote { octets }
    }

    /// The octets, at most 68 (RFC 792).
    pub fn octets(&self) -> &[u8]
        ensures { result.now ≡ self.now }
    {
        self.octets.as_slice()
    }
}

impl Default for Quote {
    /// What stands in a place that is not in use.
    fn default() -> Quote {
        Quote {
            octets: ArrayVec::new(),
        }
    }
}
