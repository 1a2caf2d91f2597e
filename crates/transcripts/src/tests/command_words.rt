//! What the words of a command line ask for.

use clap::error::ErrorKind;
use command_line::line::line;
use command_line::request::Line;
use ladder::Numbering;
use udp_link::{Every, Losses};

/// What words ask for, or how they are refused.
#[derive(Clone, Copy)]
enum Want {
    /// To run `first.txt`.
    Sim {
        capture: Option<&'static str>,
        ladder: Option<Numbering>,
    },
    /// To print the frame in `syn.hex`.
    Decode,
    /// To print those of `lo.pcap`.
    DecodeAll,
    /// To copy `one` to `two`, where one of so many frames is lost and one of so many is sent twice; 0 is none.
    Copy {
        capture: Option<&'static str>,
        lose: u64,
        repeat: u64,
        progress: bool,
    },
    Refused(ErrorKind),
}

/// What is to be answered.
fn answer(want: Want) -> Result<Line<'static>, ErrorKind> {
    match want {
        Want::Sim { capture, ladder } => Ok(Line::Sim {
            script: "first.txt",
            capture,
            ladder,
        }),
        Want::Decode => Ok(Line::Decode { hex: "syn.hex" }),
        Want::DecodeAll => Ok(Line::DecodeAll { capture: "lo.pcap" }),
        Want::Copy {
            capture,
            lose,
            repeat,
            progress,
        } => Ok(Line::Copy {
            source: "one",
            destination: "two",
            capture,
            losses: Losses {
                lose: Every::new(lose),
                repeat: Every::new(repeat),
            },
            progress,
        }),
        Want::Refused(kind) => Err(kind),
    }
}

/// Words, and what they ask for.
const ROWS: [(&[&str], Want); 42] = [
    (
        &["hostd", "sim", "first.txt"],
        Want::Sim {
            capture: None,
            ladder: None,
        },
    ),
    (
        &["hostd", "sim", "first.txt", "--pcap", "run.pcap"],
        Want::Sim {
            capture: Some("run.pcap"),
            ladder: None,
        },
    ),
    (
        &["hostd", "sim", "--pcap", "run.pcap", "first.txt"],
        Want::Sim {
            capture: Some("run.pcap"),
            ladder: None,
        },
    ),
    (
        &["hostd", "sim", "first.txt", "--ladder"],
        Want::Sim {
            capture: None,
            ladder: Some(Numbering::Relative),
        },
    ),
    (
        &["hostd", "sim", "--ladder", "first.txt", "--absolute"],
        Want::Sim {
            capture: None,
            ladder: Some(Numbering::Absolute),
        },
    ),
    (
        &["hostd", "sim", "first.txt", "--absolute"],
        Want::Sim {
            capture: None,
            ladder: Some(Numbering::Absolute),
        },
    ),
    (
        &[
            "hostd",
            "sim",
            "--ladder",
            "first.txt",
            "--pcap",
            "run.pcap",
        ],
        Want::Sim {
            capture: Some("run.pcap"),
            ladder: Some(Numbering::Relative),
        },
    ),
    (&["hostd", "decode", "syn.hex"], Want::Decode),
    (&["hostd", "decode", "--pcap", "lo.pcap"], Want::DecodeAll),
    (&["hostd", "decode", "lo.pcap", "--pcap"], Want::DecodeAll),
    (&["hostd"], Want::Refused(ErrorKind::MissingSubcommand)),
    (
        &["hostd", "sim"],
        Want::Refused(ErrorKind::MissingRequiredArgument),
    ),
    (
        &["hostd", "sim", "one", "two"],
        Want::Refused(ErrorKind::UnknownArgument),
    ),
    (
        &["hostd", "sim", "--fast", "one"],
        Want::Refused(ErrorKind::UnknownArgument),
    ),
    (
        &["hostd", "decode"],
        Want::Refused(ErrorKind::MissingRequiredArgument),
    ),
    (
        &["hostd", "decode", "one", "two"],
        Want::Refused(ErrorKind::UnknownArgument),
    ),
    (
        &["hostd", "decode", "--pcap"],
        Want::Refused(ErrorKind::MissingRequiredArgument),
    ),
    (
        &["hostd", "sim", "--pcap", "run.pcap"],
        Want::Refused(ErrorKind::MissingRequiredArgument),
    ),
    (
        &["hostd", "sim", "first.txt", "--pcap"],
        Want::Refused(ErrorKind::InvalidValue),
    ),
    (
        &["hostd", "decode", "syn.hex", "--ladder"],
        Want::Refused(ErrorKind::UnknownArgument),
    ),
    (&["hostd", "--help"], Want::Refused(ErrorKind::DisplayHelp)),
    (
        &["hostd", "sim", "--help"],
        Want::Refused(ErrorKind::DisplayHelp),
    ),
    (
        &["hostd", "decode", "--help"],
        Want::Refused(ErrorKind::DisplayHelp),
    ),
    (
        &["hostd", "copy", "one", "two"],
        Want::Copy {
            capture: None,
            lose: 0,
            repeat: 0,
            progress: false,
        },
    ),
    (
        &["hostd", "copy", "one", "two", "--lose", "7"],
        Want::Copy {
            capture: None,
            lose: 7,
            repeat: 0,
            progress: false,
        },
    ),
    (
        &["hostd", "copy", "--repeat", "5", "one", "--lose=7", "two"],
        Want::Copy {
            capture: None,
            lose: 7,
            repeat: 5,
            progress: false,
        },
    ),
    (
        &["hostd", "copy", "--progress", "one", "two"],
        Want::Copy {
            capture: None,
            lose: 0,
            repeat: 0,
            progress: true,
        },
    ),
    (
        &["hostd", "copy", "one", "--pcap", "run.pcap", "two"],
        Want::Copy {
            capture: Some("run.pcap"),
            lose: 0,
            repeat: 0,
            progress: false,
        },
    ),
    (
        &[
            "hostd",
            "copy",
            "one",
            "two",
            "--progress",
            "--pcap=run.pcap",
            "--lose=7",
        ],
        Want::Copy {
            capture: Some("run.pcap"),
            lose: 7,
            repeat: 0,
            progress: true,
        },
    ),
    (
        &["hostd", "copy", "one", "two", "--pcap"],
        Want::Refused(ErrorKind::InvalidValue),
    ),
    (
        &["hostd", "copy", "one", "two", "--lose", "2"],
        Want::Copy {
            capture: None,
            lose: 2,
            repeat: 0,
            progress: false,
        },
    ),
    (
        &["hostd", "copy", "one", "two", "--repeat", "1000000"],
        Want::Copy {
            capture: None,
            lose: 0,
            repeat: 1_000_000,
            progress: false,
        },
    ),
    (
        &["hostd", "copy", "one", "two", "--lose", "1"],
        Want::Refused(ErrorKind::ValueValidation),
    ),
    (
        &["hostd", "copy", "one", "two", "--repeat", "1"],
        Want::Refused(ErrorKind::ValueValidation),
    ),
    (
        &["hostd", "copy", "one", "two", "--lose", "0"],
        Want::Refused(ErrorKind::ValueValidation),
    ),
    (
        &["hostd", "copy", "one", "two", "--lose", "1000001"],
        Want::Refused(ErrorKind::ValueValidation),
    ),
    (
        &["hostd", "copy", "one", "two", "--lose", "seven"],
        Want::Refused(ErrorKind::ValueValidation),
    ),
    (
        &[
            "hostd",
            "copy",
            "one",
            "two",
            "--lose",
            "18446744073709551618",
        ],
        Want::Refused(ErrorKind::ValueValidation),
    ),
    (
        &["hostd", "copy", "one"],
        Want::Refused(ErrorKind::MissingRequiredArgument),
    ),
    (
        &["hostd", "copy", "one", "two", "three"],
        Want::Refused(ErrorKind::UnknownArgument),
    ),
    (
        &["hostd", "copy", "one", "two", "--lose"],
        Want::Refused(ErrorKind::InvalidValue),
    ),
    (
        &["hostd", "copy", "--help"],
        Want::Refused(ErrorKind::DisplayHelp),
    ),
];

#[test]
fn words_ask_for_a_command_or_are_refused(rt: HostRuntime) {
    for (index, (words, want)) in ROWS.into_iter().enumerate() {
        let asked = line(rt.alloc(), words).map_err(|error| error.kind());
        assert!(rt; asked == answer(want), "row {index}");
    }
}
