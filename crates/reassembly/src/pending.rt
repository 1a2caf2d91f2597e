//! What is known of a datagram that is being put together.

ghost use Rattle.std.specs.Prelude.{◌≡◌, None};
ghost use Rattle.reassembly.specs.Fragments.{key_of};
ghost use Rattle.reassembly.specs.Reassembly.{deadline_after, is_over_after, end_after};

use crate::fragment;
use crate::key::Key;
use clock::Moment;
use ipv4::Ipv4View;

/// How long the fragments of a datagram are waited for, in milliseconds (RFC 1122 section 3.3.2).
const REASSEMBLY_WAIT: u64 = 60_000;

/// What is known of a datagram that is being put together, beside what was gathered of it.
#[derive(Drop)]
pub(crate) struct Pending {
    pub(crate) key: Key,
    /// When its first fragment arrived.
    pub(crate) since: Moment,
    /// Where its payload ends, once a last fragment came.
    pub(crate) end: Option<usize>,
}

impl Pending {
    /// A datagram that begins now with a fragment, before that is noted.
    pub(crate) fn new(now: Moment, fragment: &Ipv4View) -> Pending
        ensures { result ≡ record { key = key_of fragment.now; since = now; end = None } }
    {
        Pending {
            key: Key::of(fragment),
            since: now,
            end: None,
        }
    }

    /// When its time runs out.
    pub(crate) fn deadline(&self) -> Moment
        ensures { result ≡ deadline_after self.now.since }
    {
        self.since.after(REASSEMBLY_WAIT)
    }

    /// Whether its time has run out.
    pub(crate) fn is_over(&self, now: Moment) -> bool
        ensures { result ≡ is_over_after self.now.since now }
    {
        self.deadline() <= now
    }

    /// Notes the end that a fragment tells, where it is the first to tell it.
    pub(crate) fn note_end(&mut self, fragment: &Ipv4View)
        ensures { self.new ≡ record self.old { end = end_after fragment.now self.old.end } }
    {
        if self.end.is_none() && !fragment.more_fragments() {
            self.end = Some(fragment::end(fragment));
        }
    }
}
