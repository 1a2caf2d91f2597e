//! How a payload that is too long for one frame is cut (RFC 791 section 3.2).

ghost use Rattle.std.specs.Prelude.{◌≡◌};
ghost use Rattle.std.specs.Iterator.{YieldsFirst, item_count};
ghost use Rattle.udp.specs.Fragments.{fragments_of};

use ipv4::PAYLOAD_IN_FRAME;
use std::marker::Model;

/// The octets of a fragment at most: those that a frame has behind a header of IPv4, which are units of eight.
pub const MOST_IN_FRAGMENT: u16 = PAYLOAD_IN_FRAME as u16;

/// The units of eight octets in as many.
const UNITS_IN_FRAGMENT: u16 = MOST_IN_FRAGMENT / 8;

/// A part of a payload of IPv4 that goes out in a datagram of its own.
#[derive(Clone, Copy, Debug, PartialEq, Eq)]
pub struct Fragment {
    /// Where it stands in the payload, in units of eight octets.
    pub offset: u16,
    /// Its length, in octets.
    pub len: u16,
    /// Fragments of the same payload follow behind it.
    pub more_fragments: bool,
}

impl Fragment {
    ghost use Rattle.std.specs.Prelude.{◌<◌};
    ghost use Rattle.udp.specs.Fragments.{count_of, fragment};

    /// The fragment with this number, counted from 0, of a payload of IPv4 of so many octets (RFC 791 section 3.2).
    pub fn at(len: u16, number: u16) -> Fragment
        requires { number < count_of len }
        ensures { result ≡ fragment len number }
    {
        let rest = len - MOST_IN_FRAGMENT * number;
        Fragment {
            offset: UNITS_IN_FRAGMENT * number,
            len: rest.min(MOST_IN_FRAGMENT),
            more_fragments: rest > MOST_IN_FRAGMENT,
        }
    }
}

/// What a header of IPv4 has to tell of a payload that goes out in one datagram, be it a fragment or the whole.
#[derive(Clone, Copy, Debug, PartialEq, Eq)]
pub struct Part {
    /// The identification, which all fragments of one payload have (RFC 791 section 3.2).
    pub identification: u16,
    /// Its length, its place in the payload, and whether more fragments follow.
    pub fragment: Fragment,
}

/// The fragments of a payload that are left to go out, in order.
#[derive(Drop)]
pub struct FragmentIter {
    len: u16,
    number: u16,
    left: u16,
}

impl Model for FragmentIter {
    ghost use Rattle.std.specs.Prelude.{◌≡◌, ◌+◌, List};
    ghost use Rattle.udp.specs.declared.cutting.Fragment.{Fragment};
    ghost use Rattle.udp.specs.Fragments.{count_of, fragments_from};

    ghost Value = { List Fragment };

    ghost view = { λ s. fragments_from s.len s.number s.left };

    ghost invariant = { λ s. s.number + s.left ≡ count_of s.len };
}

/// Cuts a payload of IPv4 of so many octets: 1,480 octets in each fragment, and the rest in the last, which alone has no more
/// behind it. A payload of at most 1,480 octets, an empty one too, is one fragment (RFC 791 section 3.2).
pub fn fragments(len: u16) -> FragmentIter
    ensures { result ≡ fragments_of len }
{
    FragmentIter {
        len,
        number: 0,
        left: len.div_ceil(MOST_IN_FRAGMENT).max(1),
    }
}

impl Iterator for FragmentIter {
    type Item = Fragment;

    ghost next_gives = { YieldsFirst (λ left. left) };

    ghost remaining = { item_count (λ left. left) };

    fn next(&mut self) -> Option<Fragment> {
        if self.left == 0 {
            return None;
        }
        let fragment = Fragment::at(self.len, self.number);
        self.number += 1;
        self.left -= 1;
        Some(fragment)
    }
}
