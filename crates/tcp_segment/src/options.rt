//! The options of a header (RFC 9293 section 3.2, RFC 7323 section 2.2, RFC 2018 sections 2 and 3).

ghost use Rattle.std.specs.Prelude.{◌≡◌, ◌≤◌, IfOk, IfErr, None, Some, length};
ghost use Rattle.std.specs.Option.{ok_or, option_map};
ghost use Rattle.tcp_segment.specs.declared.fault.SegmentFault.TheVariants.{UpperHeader};
ghost use Rattle.tcp_segment.specs.Options.{last_mss, last_scale, block_in, blocks_in};
ghost use Rattle.tcp_segment.specs.Reading.{options_behind, option_in, body_in, mss_in, scale_in};
ghost use Rattle.tcp_segment.specs.Telling.{told_of, told_with};

use crate::MOST_BLOCKS;
use crate::blocks::{BLOCK_LEN, Block, Blocks};
use crate::fault::SegmentFault;
use crate::seq::Seq;
use byteorder::{BigEndian, ByteOrder};

const END_OF_OPTIONS: u8 = 0;

/// The kind of an option that says nothing.
pub(crate) const NO_OPERATION: u8 = 1;

/// The kind of the MSS option.
pub(crate) const MAXIMUM_SEGMENT_SIZE: u8 = 2;

/// The kind of the window scale option.
pub(crate) const WINDOW_SCALE: u8 = 3;

/// The kind of the option that permits selective acknowledgements (RFC 2018 section 2).
pub(crate) const SACK_PERMITTED: u8 = 4;

/// The kind of the option that reports blocks (RFC 2018 section 3).
pub(crate) const SACK: u8 = 5;

/// What options tell, each thing by the last option that tells it.
#[derive(Clone, Copy)]
pub(crate) struct Told {
    /// The maximum segment size, in octets (RFC 9293 section 3.7.1).
    pub(crate) mss: Option<u16>,
    /// The shift of the sender's windows (RFC 7323 section 2.2).
    pub(crate) scale: Option<u8>,
    /// Whether the sender takes selective acknowledgements (RFC 2018 section 2).
    pub(crate) sacks: bool,
    /// What the sender holds ahead of a gap (RFC 2018 section 3).
    pub(crate) blocks: Blocks,
}

impl Told {
    /// What no options tell.
    pub(crate) const NOTHING: Told = Told {
        mss: None,
        scale: None,
        sacks: false,
        blocks: Blocks::NONE,
    };

    /// With what the option of this kind tells that has this body.
    fn with(self, kind: u8, body: &[u8]) -> Result<Told, SegmentFault>
        ensures { result ≡ ok_or (option_map (told_with self) (option_in kind body.now)) UpperHeader }
    {
        match kind {
            MAXIMUM_SEGMENT_SIZE => Ok(Told {
                mss: Some(mss_of(body)?),
                ..self
            }),
            WINDOW_SCALE => Ok(Told {
                scale: Some(scale_of(body)?),
                ..self
            }),
            SACK_PERMITTED => Ok(Told {
                sacks: self.sacks || body.is_empty(),
                ..self
            }),
            SACK => Ok(Told {
                blocks: blocks_in(body).unwrap_or(self.blocks),
                ..self
            }),
            _ => Ok(self),
        }
    }
}

/// What options tell. Most segments have none, and of these nothing is walked through.
#[inline(always)]
pub(crate) fn told_by(options: &[u8]) -> Result<Told, SegmentFault>
    ensures { result ≡ ok_or (option_map told_of (options_behind options.now 0)) UpperHeader }
{
    if options.is_empty() {
        return Ok(Told::NOTHING);
    }
    walk(options)
}

/// Walks the options, and answers what they tell.
fn walk(options: &[u8]) -> Result<Told, SegmentFault>
    ensures { result ≡ ok_or (option_map told_of (options_behind options.now 0)) UpperHeader }
{
    let mut told = Told::NOTHING;
    let mut rest = options;
    while let [kind, tail @ ..] = rest {
        match *kind {
            END_OF_OPTIONS => return Ok(told),
            NO_OPERATION => rest = tail,
            kind => {
                let (body, after) = body_of(tail)?;
                told = told.with(kind, body)?;
                rest = after;
            }
        }
    }
    Ok(told)
}

/// The octets of an option behind its length, and what stands behind the option, of the octets
/// from its length on.
fn body_of(octets: &[u8]) -> Result<(&[u8], &[u8]), SegmentFault>
    ensures ok { IfOk result (λ parts. body_in octets.now ≡ Some (parts.0.now, parts.1.now)) }
    ensures err { IfErr result (λ fault. (body_in octets.now ≡ None) × (fault ≡ UpperHeader)) }
{
    match octets {
        [len, rest @ ..] if 2 <= *len && usize::from(*len) - 2 <= rest.len() => {
            Ok(rest.split_at(usize::from(*len) - 2))
        }
        _ => Err(SegmentFault::UpperHeader),
    }
}

/// The maximum segment size in the body of an MSS option.
fn mss_of(body: &[u8]) -> Result<u16, SegmentFault>
    ensures { result ≡ ok_or (mss_in body.now) UpperHeader }
{
    if body.len() != 2 {
        return Err(SegmentFault::UpperHeader);
    }
    Ok(BigEndian::read_u16(body))
}

/// The shift in the body of a window scale option.
fn scale_of(body: &[u8]) -> Result<u8, SegmentFault>
    ensures { result ≡ ok_or (scale_in body.now) UpperHeader }
{
    if body.len() != 1 {
        return Err(SegmentFault::UpperHeader);
    }
    Ok(body[0])
}

/// The blocks in the body of an option that reports blocks; none where it has another length than such a body has.
fn blocks_in(body: &[u8]) -> Option<Blocks>
    ensures { result ≡ blocks_in body.now }
{
    if body.is_empty() || body.len() > MOST_BLOCKS * BLOCK_LEN || body.len() % BLOCK_LEN != 0 {
        return None;
    }
    let mut blocks = Blocks::NONE;
    for i in 0..body.len() / BLOCK_LEN {
        blocks.push(block_in(&body[BLOCK_LEN * i..]));
    }
    Some(blocks)
}

/// The block that octets begin with.
fn block_in(octets: &[u8]) -> Block
    requires { BLOCK_LEN ≤ length octets.now }
    ensures { result ≡ block_in octets.now }
{
    Block {
        left: Seq(BigEndian::read_u32(octets)),
        right: Seq(BigEndian::read_u32(&octets[4..])),
    }
}
