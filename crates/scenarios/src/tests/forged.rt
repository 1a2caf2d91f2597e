//! Frames that somebody forged: good ones that are cut, or of which a bit is turned over or an octet is another. The counts are those of a reading of the
//! formats that is none of this stack's.

use super::octets::{
    ASKED_BACK, DIGITS, ECHO, HI, LETTERS, LETTERS_ACKED, REPLY, REQUEST, SYN, SYN_ACK, SYN_ACKED,
};
use super::stations::Side::{A, B};
use super::stations::{
    Act, CLIENT, LISTENING, ONE, SERVER, Side, Station, Step, TWO, config, is_answered,
};
use ether::Mac;
use host::{DropCause, Refusal};
use ipv4::Addr;
use std::alloc::Global;
use std::process::Abort;

/// A host that heard nothing, and that doesn't use the window scale option.
fn fresh(rt: &impl Abort, alloc: Global, side: Side) -> Station {
    Station::new(rt, alloc, config(rt, side).with_scale(false))
}

/// A frame for B, how it is dropped with fewer octets, but not fewer than a head, and how many are enough.
const CUT: [(&[u8], DropCause, usize); 5] = [
    (SYN, DropCause::IpHeader, 58),
    (REQUEST, DropCause::UpperHeader, 42),
    (ECHO, DropCause::IpHeader, 45),
    (HI, DropCause::IpHeader, 44),
    (DIGITS, DropCause::IpHeader, 64),
];

/// The octets of the head of a frame (RFC 894).
const HEAD: usize = 14;

/// Each frame with its first octets alone, however many.
fn cut_frames(rt: &impl Abort, alloc: Global) {
    for (frame, cause, enough) in &CUT {
        for len in 0..=frame.len() {
            let (octets, _) = frame.split_at(len);
            let want = if len < HEAD {
                Err(DropCause::Short)
            } else if len < *enough {
                Err(*cause)
            } else {
                Ok(())
            };
            assert!(rt; fresh(rt, alloc, B).hear(7, octets) == want, "{len} octets");
        }
    }
}

/// How many frames are taken, and how many are dropped by the cause with each number.
type Counts = [u32; 11];

/// One more is answered so.
fn count(counts: &mut Counts, answer: Result<(), DropCause>) {
    let number = match answer {
        Ok(()) => 0,
        Err(cause) => usize::from(cause.number()),
    };
    if let Some(count) = counts.get_mut(number) {
        *count = count.saturating_add(1);
    }
}

/// A frame of the row: whom it is for, what goes out of a host that heard nothing else, and how it is answered with each of its bits turned over in turn.
struct Frame {
    octets: &'static [u8],
    to: Side,
    draws: Option<&'static [u8]>,
    counts: Counts,
}

/// Two segments arrive in the other order. Each part of the row ends where the frame comes with which the next one begins.
const ROW: [&[Step]; 9] = [
    LISTENING,
    &[
        (A, Act::Connect(4_294_967_295, ONE, SERVER, Ok(()))),
        (A, Act::Sends(REQUEST)),
    ],
    &[(B, Act::Hear(7, REQUEST, Ok(()))), (B, Act::Sends(REPLY))],
    &[(A, Act::Hear(7, REPLY, Ok(()))), (A, Act::Sends(SYN))],
    &[(B, Act::Hear(7, SYN, Ok(()))), (B, Act::Sends(SYN_ACK))],
    &[
        (A, Act::Hear(7, SYN_ACK, Ok(()))),
        (A, Act::Sends(SYN_ACKED)),
    ],
    &[
        (B, Act::Hear(7, SYN_ACKED, Ok(()))),
        (B, Act::Accept(ONE, TWO, CLIENT)),
        (A, Act::Send(ONE, b"0123456789", Ok(10))),
        (A, Act::Sends(DIGITS)),
        (A, Act::Send(ONE, b"abcdefghij", Ok(10))),
        (A, Act::Emit(None)),
        (A, Act::Tick(500)),
        (A, Act::Sends(LETTERS)),
    ],
    &[
        (B, Act::Hear(7, LETTERS, Ok(()))),
        (B, Act::Recv(TWO, Err(Refusal::EAGAIN))),
    ],
    &[
        (B, Act::Hear(7, DIGITS, Ok(()))),
        (B, Act::Hear(7, DIGITS, Ok(()))),
        (B, Act::Reads(TWO, b"0123456789abcdefghij")),
        (B, Act::Sends(LETTERS_ACKED)),
    ],
];

/// Its frames, in the order in which they come. A maximum segment size turned into a window scale option has the wrong length for one (RFC 7323 section 2.2).
const FRAMES: [Frame; 7] = [
    Frame {
        octets: REQUEST,
        to: B,
        draws: Some(REPLY),
        counts: [352, 0, 64, 0, 0, 0, 0, 64, 0, 0, 0],
    },
    Frame {
        octets: REPLY,
        to: A,
        draws: None,
        counts: [352, 0, 48, 16, 0, 0, 0, 64, 0, 0, 0],
    },
    Frame {
        octets: SYN,
        to: B,
        draws: Some(ASKED_BACK),
        counts: [64, 0, 48, 16, 19, 141, 0, 13, 179, 0, 0],
    },
    Frame {
        octets: SYN_ACK,
        to: A,
        draws: Some(REQUEST),
        counts: [64, 0, 48, 16, 19, 141, 0, 13, 179, 0, 0],
    },
    Frame {
        octets: SYN_ACKED,
        to: B,
        draws: Some(ASKED_BACK),
        counts: [96, 0, 48, 16, 20, 140, 0, 4, 156, 0, 0],
    },
    Frame {
        octets: LETTERS,
        to: B,
        draws: Some(ASKED_BACK),
        counts: [48, 0, 48, 16, 22, 138, 0, 4, 236, 0, 0],
    },
    Frame {
        octets: DIGITS,
        to: B,
        draws: Some(ASKED_BACK),
        counts: [48, 0, 48, 16, 22, 138, 0, 4, 236, 0, 0],
    },
];

/// The parts of the row before its first frame comes.
const BEFORE: usize = 2;

/// A frame of at most 64 octets, one of which is another.
#[derive(Clone, Copy)]
struct Forged {
    octets: [u8; 64],
    len: usize,
}

impl Forged {
    fn new(frame: &[u8], place: usize, octet: u8) -> Forged {
        let mut octets = [0; 64];
        for (new, old) in octets.iter_mut().zip(frame) {
            *new = *old;
        }
        if let Some(new) = octets.get_mut(place) {
            *new = octet;
        }
        Forged {
            octets,
            len: frame.len().min(64),
        }
    }

    fn as_slice(&self) -> &[u8] {
        &self.octets[..self.len.min(64)]
    }
}

/// The address that a frame is for (RFC 791, behind a head without options); an ARP packet, and what is too short, are for any.
fn address_of(frame: &[u8]) -> Addr {
    match frame.get(30..34) {
        Some([first, second, third, fourth]) if frame.get(13) != Some(&6) => {
            Addr([*first, *second, *third, *fourth])
        }
        _ => Addr([10, 0, 0, 9]),
    }
}

/// Whether a frame is well formed to the host that it is for, or for ARP to any other.
fn is_well_formed(frame: &[u8]) -> bool {
    let Some([first, second, third, fourth, fifth, sixth]) = frame.get(..6) else {
        return false;
    };
    let mac = Mac([*first, *second, *third, *fourth, *fifth, *sixth]);
    60 <= frame.len() && frames::read(mac, address_of(frame), frame).is_ok()
}

/// More frames than are due at once.
const MOST_FRAMES: usize = 16;

/// Whether all that is due at a host is well formed.
fn emits_well(station: &mut Station) -> bool {
    for _ in 0..MOST_FRAMES {
        if station.emit().is_none() {
            return true;
        }
        if !is_well_formed(station.sent()) {
            return false;
        }
    }
    false
}

/// A host that heard nothing hears a forged frame. If that is dropped, nothing is due, and the frame itself draws what it draws without it.
fn alone(rt: &impl Abort, alloc: Global, frame: &Frame, octets: &[u8]) -> Result<(), DropCause> {
    let mut host = fresh(rt, alloc, frame.to);
    let answer = host.hear(7, octets);
    if answer.is_ok() {
        assert!(rt; emits_well(&mut host));
        return answer;
    }
    assert!(rt; host.emits(None) && host.waits_until(None));
    assert!(rt; host.hear(7, frame.octets) == Ok(()));
    let draws_the_same = match frame.draws {
        Some(drawn) => host.emits_frame(drawn),
        None => host.emits(None),
    };
    assert!(rt; draws_the_same);
    answer
}

/// Two hosts that play the row.
#[derive(Drop)]
struct Pair {
    a: Station,
    b: Station,
}

impl Pair {
    /// Does what is done at a host, and tells whether it is answered so.
    fn does(&mut self, side: Side, act: Act) -> bool {
        match side {
            A => is_answered(&mut self.a, &mut self.b, act),
            B => is_answered(&mut self.b, &mut self.a, act),
        }
    }

    fn hears(&mut self, side: Side, octets: &[u8]) -> Result<(), DropCause> {
        match side {
            A => self.a.hear(7, octets),
            B => self.b.hear(7, octets),
        }
    }

    /// Whether all that is due at either host is well formed.
    fn emits_well(&mut self) -> bool {
        emits_well(&mut self.a) && emits_well(&mut self.b)
    }

    /// Plays parts of the row, each step of which is answered so; or where something else was taken, each call returns, and what goes out is well formed.
    fn plays(&mut self, rt: &impl Abort, parts: &[&[Step]], is_other: bool) {
        for steps in parts {
            for (side, act) in *steps {
                assert!(rt; !is_other || self.emits_well());
                assert!(rt; self.does(*side, *act) || is_other);
            }
        }
        assert!(rt; !is_other || self.emits_well());
    }
}

/// In the row a forged frame comes right before the frame with this number. If it is dropped, that frame and the rest of the row are answered as they are without it.
fn in_the_row(
    rt: &impl Abort,
    alloc: Global,
    number: usize,
    frame: &Frame,
    octets: &[u8],
) -> Result<(), DropCause> {
    let mut pair = Pair {
        a: fresh(rt, alloc, A),
        b: fresh(rt, alloc, B),
    };
    let place = number.saturating_add(BEFORE);
    let (before, behind) = ROW.split_at_checked(place).expect(rt, "a frame of the row");
    pair.plays(rt, before, false);
    let answer = pair.hears(frame.to, octets);
    pair.plays(rt, behind, answer.is_ok());
    answer
}

/// Each bit of each frame of the row is turned over, for a host that heard nothing and in the row.
fn turned_bits(rt: &impl Abort, alloc: Global) {
    for (number, frame) in FRAMES.iter().enumerate() {
        let (mut by_fresh, mut by_known) = ([0; 11], [0; 11]);
        for (place, octet) in frame.octets.iter().enumerate() {
            for mask in [1, 2, 4, 8, 16, 32, 64, 128] {
                let forged = Forged::new(frame.octets, place, *octet ^ mask);
                count(&mut by_fresh, alone(rt, alloc, frame, forged.as_slice()));
                count(
                    &mut by_known,
                    in_the_row(rt, alloc, number, frame, forged.as_slice()),
                );
            }
        }
        assert!(rt;
            by_fresh == frame.counts && by_known == frame.counts,
            "frame {number}"
        );
    }
}

/// How many control replies wait at most.
const MOST_ANSWERS: u32 = 16;

/// How the request and the SYN are answered with each octet in turn each other one: one sender has our own address, and others' addresses aren't unicast.
const OTHER_OCTETS: [(usize, Counts); 2] = [
    (0, [11_186, 0, 2_040, 0, 0, 0, 35, 2_039, 0, 0, 0]),
    (2, [2_040, 0, 1_530, 509, 733, 4_367, 0, 482, 5_639, 0, 0]),
];

/// A host hears on until it took as many as it has room to answer.
fn other_octets(rt: &impl Abort, alloc: Global) {
    for (number, want) in &OTHER_OCTETS {
        let frame = FRAMES.get(*number).expect(rt, "a frame");
        let (mut counts, mut host) = ([0; 11], fresh(rt, alloc, frame.to));
        for (place, old) in frame.octets.iter().enumerate() {
            for octet in 0..=255 {
                if octet != *old {
                    let forged = Forged::new(frame.octets, place, octet);
                    let answer = host.hear(7, forged.as_slice());
                    count(&mut counts, answer);
                    if answer.is_ok() && counts[0] % MOST_ANSWERS == 0 {
                        host = fresh(rt, alloc, frame.to);
                    }
                }
            }
        }
        assert!(rt; counts == *want, "frame {number}");
    }
}

#[test]
fn forged_frames_are_dropped_by_their_names(rt: HostRuntime) {
    cut_frames(&rt, rt.alloc());
    turned_bits(&rt, rt.alloc());
    other_octets(&rt, rt.alloc());
}
