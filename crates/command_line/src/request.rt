//! What the user may ask for.

use ladder::Numbering;
use udp_link::Losses;

/// What a command line asks for.
#[derive(Clone, Copy, Debug, PartialEq, Eq)]
pub enum Line<'a> {
    /// To run the script in this file, to write a capture of its frames to the other, if one is told, and to print the ladder of the run, if its
    /// numbers are asked for.
    Sim {
        script: &'a str,
        capture: Option<&'a str>,
        ladder: Option<Numbering>,
    },
    /// To print what the frame in this file says.
    Decode {
        hex: &'a str,
    },
    /// To print what the frames of the capture in this file say.
    DecodeAll {
        capture: &'a str,
    },
    /// To copy the first file to the other over two hosts, to write a capture of their frames to the third, if one is told, to lose frames and
    /// send them twice so, and to say meanwhile how far it is, if so asked.
    Copy {
        source: &'a str,
        destination: &'a str,
        capture: Option<&'a str>,
        losses: Losses,
        progress: bool,
    },
}
