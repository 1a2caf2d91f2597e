//! Octets from a text of hexadecimal digits.

ghost use Rattle.std.specs.Prelude.{◌≡◌, Some, None, Ok, IsErr, map, IfOk, IfErr};
ghost use Rattle.std.specs.List.{slice_split};
ghost use Rattle.hex.specs.Hex.{decode_of};
ghost use Rattle.decode.specs.Pairs.{is_space, octets_in, octets_of_words};
ghost use Rattle.decode.specs.declared.pairs.HexFault.TheVariants.{NotHex, NoMemory};

use hex::FromHexError;
use std::alloc::{AllocError, Global};
use thiserror::Error;

/// Why a text gives no octets.
#[derive(Clone, Copy, PartialEq, Eq, Debug, Error)]
pub enum HexFault {
    /// It isn't pairs of hexadecimal digits and white space.
    #[error("not hex")]
    NotHex,
    /// Memory ran out.
    #[error("out of memory")]
    NoMemory,
}

impl From<AllocError> for HexFault {
    ghost from_gives = { λ _ fault. fault ≡ NoMemory };

    fn from(_error: AllocError) -> HexFault {
        HexFault::NoMemory
    }
}

/// The octets that the pairs of hexadecimal digits in `text` spell, in either case, with white space before, between and after the pairs: blanks,
/// tabs, line feeds, vertical tabs, form feeds and carriage returns. A text may have any length.
///
/// `NotHex` where the text has anything else; `NoMemory` for want of memory.
pub fn octets_of(alloc: Global, text: &[u8]) -> Result<Vec<u8>, HexFault>
    ensures ok { IfOk result (λ octets. octets_in text.now ≡ Some octets.items) }
    ensures err { IfErr result (λ fault. fault ≡ NotHex → octets_in text.now ≡ None) }
{
    octets_of_words(alloc, words_of(alloc, text)?.as_slice())
}

/// What stands before, between and after the white space of a text.
fn words_of(alloc: Global, text: &[u8]) -> Result<Vec<&[u8]>, AllocError>
    ensures { IfOk result (λ words. map (λ word. word.now) words.items ≡ slice_split is_space text.now) }
{
    text.split(|octet| is_space(*octet)).collect(alloc)
}

/// Whether an octet is white space, as C's `isspace` has it.
fn is_space(octet: u8) -> bool
    ensures { result ≡ is_space octet }
{
    matches!(octet, b' ' | b'\t'..=b'\r')
}

/// The octets that words of pairs spell.
fn octets_of_words(alloc: Global, words: &[&[u8]]) -> Result<Vec<u8>, HexFault>
    ensures ok { IfOk result (λ octets. octets_of_words (map (λ word. word.now) words.now) ≡ Some octets.items) }
    ensures err { IfErr result (λ fault. fault ≡ NotHex → octets_of_words (map (λ word. word.now) words.now) ≡ None) }
{
    let mut octets = Vec::new(alloc);
    for word in words {
        octets.extend_from_slice(octets_of_word(alloc, word)?.as_slice())?;
    }
    Ok(octets)
}

/// The octets that a word of pairs spells.
fn octets_of_word(alloc: Global, word: &[u8]) -> Result<Vec<u8>, HexFault>
    ensures ok { IfOk result (λ octets. decode_of word.now ≡ Ok octets.items) }
    ensures err { IfErr result (λ fault. fault ≡ NotHex → IsErr (decode_of word.now)) }
{
    match hex::decode(alloc, word) {
        Ok(octets) => Ok(octets),
        Err(FromHexError::OutOfMemory) => Err(HexFault::NoMemory),
        Err(_) => Err(HexFault::NotHex),
    }
}
