//! The parts of a script's line: words parted by one blank, decimal numbers, and text.

ghost use Rattle.std.specs.Prelude.{◌≡◌, ℕ, List, IfOk, IsTrue, option_map, map, ◌==◌, ◌<◌, ◌^◌, length};
ghost use Rattle.std.specs.List.{slice_split, list_all};
ghost use Rattle.std.specs.Option.{SomeIff};
ghost use Rattle.std.specs.Char.{is_ascii_digit, is_ascii_graphic};
ghost use Rattle.std.specs.Str.Parse.{digits_value};
ghost use Rattle.script.specs.Words.{number_of, text_of, is_ascii_line, lines_of};

use std::alloc::{AllocError, Global};
use std::marker::Model;

/// The octets of a line's text, each from 0x21 to 0x7e.
#[derive(Debug, Drop)]
pub struct Text<'a> {
    octets: &'a [u8],
}

impl<'a> Model for Text<'a> {
    ghost Value = { List ℕ };

    ghost view = { λ text. text.octets.now };
}

impl<'a> Text<'a> {
    /// The text that `word` is: at least one octet, each from 0x21 to 0x7e.
    pub fn new(word: &'a [u8]) -> Option<Text<'a>>
        ensures { result ≡ text_of word.entry.now }
    {
        if word.is_empty() || !all_graphic(word) {
            None
        } else {
            Some(Text { octets: word })
        }
    }

    /// Its octets.
    pub fn octets(&self) -> &'a [u8]
        ensures { result.now ≡ self.now }
    {
        self.octets
    }
}

/// Whether each octet of `word` is one of text.
fn all_graphic(word: &[u8]) -> bool
    ensures { result ≡ list_all is_ascii_graphic word.now }
{
    word.iter().all(|octet| octet.is_ascii_graphic())
}

/// The lines of a script: what stands before, between and after its newlines. An error is want of memory.
pub fn split_lines(alloc: Global, octets: &[u8]) -> Result<Vec<&[u8]>, AllocError>
    ensures { IfOk result (λ lines. map (λ line. line.now) lines.items ≡ lines_of octets.now) }
{
    split(alloc, octets, b'\n')
}

/// What stands before, between and after the octets of `octets` that are `separator`.
pub fn split(alloc: Global, octets: &[u8], separator: u8) -> Result<Vec<&[u8]>, AllocError>
    ensures { IfOk result (λ parts. map (λ part. part.now) parts.items
        ≡ slice_split (λ octet. octet == separator) octets.now) }
{
    octets.split(|octet| *octet == separator).collect(alloc)
}

/// The number that `word` writes in decimal digits, if it is at most `most`. Leading zeros are digits.
pub fn number(word: &[u8], most: u64) -> Option<u64>
    ensures { result ≡ number_of most word.now }
{
    if word.is_empty() || !all_digits(word) {
        return None;
    }
    let value = decimal(word)?;
    if value <= most { Some(value) } else { None }
}

/// Whether each octet of `word` is a decimal digit.
fn all_digits(word: &[u8]) -> bool
    ensures { result ≡ list_all is_ascii_digit word.now }
{
    word.iter().all(|digit| digit.is_ascii_digit())
}

/// The number that decimal digits write, if 64 bits hold it.
fn decimal(digits: &[u8]) -> Option<u64>
    requires some { 0 < length digits.now }
    requires digits { IsTrue (list_all is_ascii_digit digits.now) }
    ensures { SomeIff result (digits_value 10 digits.now < 2 ^ 64) (digits_value 10 digits.now) }
{
    match str::from_utf8(digits) {
        Ok(text) => text.parse::<u64>().ok(),
        Err(_) => None,
    }
}

/// Whether each octet of `line` is ASCII.
pub fn is_ascii(line: &[u8]) -> bool
    ensures { result ≡ is_ascii_line line.now }
{
    line.iter().all(|octet| *octet < 0x80)
}
