//! What a fragment says of the whole datagram.

ghost use Rattle.std.specs.Prelude.{◌≡◌, ◌≤◌};
ghost use Rattle.ipv4.specs.declared.limits.TheConstants.{MAX_PAYLOAD};
ghost use Rattle.reassembly.specs.Fragments.{begin_of, end_of, ends_within};
ghost use Rattle.reassembly.specs.Reassembly.{conflicts};

use ipv4::Ipv4View;

/// The octets of a unit of the offset (RFC 791 section 3.1).
const UNIT: usize = 8;

/// The place of its first octet in the payload of the whole datagram.
pub(crate) fn begin(fragment: &Ipv4View) -> usize
    ensures { result ≡ begin_of fragment.now }
{
    UNIT * usize::from(fragment.offset())
}

/// The place behind its last octet.
pub(crate) fn end(fragment: &Ipv4View) -> usize
    ensures value { result ≡ end_of fragment.now }
    ensures bound { result ≤ MAX_PAYLOAD }
{
    begin(fragment) + fragment.payload().len()
}

/// Whether it ends within so many octets.
pub(crate) fn ends_within(fragment: &Ipv4View, octets: usize) -> bool
    ensures { result ≡ ends_within octets fragment.now }
{
    end(fragment) <= octets
}

/// Whether it contradicts those that came before, of which the last tells this end, and which reach so far.
pub(crate) fn conflicts(fragment: &Ipv4View, known: Option<usize>, reach: usize) -> bool
    ensures { result ≡ conflicts fragment.now known reach }
{
    let own = end(fragment);
    let is_last = !fragment.more_fragments();
    match known {
        None => is_last && own < reach,
        Some(known) => known < own || is_last && own != known,
    }
}
