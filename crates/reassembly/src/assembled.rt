//! What a fragment comes to.

use thiserror::Error;

/// What a fragment comes to.
#[derive(Drop)]
pub enum Assembled<'a> {
    /// Its datagram waits for others.
    Waiting,
    /// With it the datagram is whole. Its place is free again.
    Whole(Whole<'a>),
    /// It is not kept.
    Dropped(Loss),
}

/// A datagram that was put together, lent from the pool.
#[derive(Drop)]
pub struct Whole<'a> {
    /// The octets of its payload.
    pub octets: &'a [u8],
    /// What an error message about it quotes: the header and the first eight octets of data of the fragment zero that came
    /// last (RFC 792, RFC 1122 section 3.2.2).
    pub quote: &'a [u8],
}

/// Why a fragment is not kept.
#[derive(Clone, Copy, PartialEq, Eq, Debug, Error)]
pub enum Loss {
    /// It is of a datagram of which nothing came before, and no place is free, or it ends past the room of a place.
    #[error("F9 NoRoom")]
    NoRoom,
    /// It ends past the room of its datagram's place, or contradicts those that came before: it has an octet past the end, or tells
    /// another end. Its datagram is given up, and the place is free again.
    #[error("given up")]
    GivenUp,
}
