//! The things that the record of a run tells.

ghost use Rattle.std.specs.Prelude.{◌≡◌, ℕ, List, string_bytes};

use crate::passage::Passage;
use std::marker::Model;

/// A line of a script, which was to be done.
#[derive(Debug, Drop)]
pub struct Line<'a> {
    octets: &'a [u8],
}

impl<'a> Model for Line<'a> {
    ghost Value = { List ℕ };

    ghost view = { λ line. line.octets.now };
}

impl<'a> Line<'a> {
    /// The line with these octets, with no newline.
    pub fn new(octets: &'a [u8]) -> Line<'a>
        ensures { result ≡ octets.entry.now }
    {
        Line { octets }
    }

    /// Its octets.
    pub(crate) fn octets(&self) -> &'a [u8]
        ensures { result.now ≡ self.now }
    {
        self.octets
    }
}

/// A line of what was printed.
#[derive(Debug, Drop)]
pub struct Text {
    printed: String,
}

impl Model for Text {
    ghost Value = { List ℕ };

    ghost view = { λ text. string_bytes text.printed };
}

impl Text {
    /// The line with this text, with no newline.
    pub fn new(printed: String) -> Text
        ensures { result ≡ string_bytes printed }
    {
        Text { printed }
    }

    /// Its octets, as text.
    pub(crate) fn printed(&self) -> &str
        ensures { result.now ≡ self.now }
    {
        self.printed.as_str()
    }
}

/// One of the things that the record of a run tells.
#[derive(Debug, Drop)]
pub enum Happened<'a> {
    /// This was to be done.
    Said(Line<'a>),
    /// This happened to a frame.
    Passed(Passage),
    /// This line was printed.
    Printed(Text),
}
