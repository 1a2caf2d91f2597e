//! `struct host_config`, by its octets.

ghost use Rattle.std.specs.Prelude.{◌≡◌, ◌↔◌, ◌≤◌, ◌<◌, IsSome, IfSome, IsTrue, All, length};
ghost use Rattle.hostc.specs.Config.{IsConfig, config_in, first_threshold_in, guards_in, number_at, octet_at, options_end, or_usual, recovery_of, sizes_in};

use byteorder::{ByteOrder, LittleEndian};
use ether::Mac;
use host::{Recovery, Sizes};

/// What a config says beside its routes.
#[derive(Clone, Copy, Debug)]
pub struct Config {
    /// The MAC of the host's interface.
    pub mac: Mac,
    /// The host's address, as a number.
    pub addr: u32,
    /// Whether the host uses the window scale option.
    pub scales: bool,
    /// Whether its small segments wait for small ones only.
    pub minshall: bool,
    /// How its connections repair losses.
    pub recovery: Recovery,
    /// How many segments the first congestion window of its connections has; 0 stands for two to four.
    pub first_segments: u8,
    /// The least retransmission timeout of its connections, in milliseconds.
    pub least_timeout: u16,
    /// The slow start threshold of its connections at first, in octets.
    pub first_threshold: u32,
    /// Whether it is on its guard.
    pub guards: bool,
    /// How large it is.
    pub sizes: Sizes,
}

/// How many octets the least config has. It ends before the first threshold.
const LEAST: usize = 40;
/// How many octets the least config has that has the first threshold, too.
const WITH_THRESHOLD: usize = 44;
/// How many octets the least config has that has the option to be on guard, too.
const WITH_GUARDS: usize = 45;
/// How many octets the least config has that has all options.
const WHOLE: usize = 60;
/// The place of its address.
const ADDR: usize = 24;
/// The place of its MAC.
const MAC: usize = 28;
/// The place of the option not to scale windows.
const NO_WINDOW_SCALE: usize = 34;
/// The place of the option that small segments wait for small ones only.
const MINSHALL: usize = 35;
/// The place of the number that says how losses are repaired.
const RECOVERY: usize = 36;
/// The place of the number of the first window's segments.
const FIRST_SEGMENTS: usize = 37;
/// The place of the least timeout.
const LEAST_TIMEOUT: usize = 38;
/// The place of the first slow start threshold.
const FIRST_THRESHOLD: usize = 40;
/// The place of the option to be on guard.
const GUARDS: usize = 44;
/// The place of the number of control replies.
const REPLIES: usize = 45;
/// The place of the option to put no datagrams together.
const NO_REASSEMBLY: usize = 46;
/// The place of the number of datagrams that are put together.
const REASSEMBLIES: usize = 47;
/// The place of the number of entries.
const ENTRIES: usize = 48;
/// The place of the octets of a connection's buffers.
const BUFFER: usize = 52;
/// The place of the number of neighbours.
const NEIGHBOURS: usize = 56;
/// The place of the octets of a datagram that is put together.
const REASSEMBLY_OCTETS: usize = 58;

impl Config {
    /// What these octets say; None where they are no config.
    pub(crate) fn read(octets: &[u8]) -> Option<Config>
        ensures valid { IsSome result ↔ IsConfig octets.now }
        ensures told { IfSome result (λ config. config ≡ config_in octets.now) }
    {
        if octets.len() < LEAST || LittleEndian::read_u64(octets) != octets.len() as u64 {
            return None;
        }
        let no_window_scale = octets[NO_WINDOW_SCALE];
        let minshall = octets[MINSHALL];
        let recovery = octets[RECOVERY];
        let guards = guards_in(octets);
        let no_reassembly = octet_at(octets, NO_REASSEMBLY);
        if no_window_scale > 1 || minshall > 1 || recovery > 2 || guards > 1 || no_reassembly > 1 {
            return None;
        }
        let (_, rest) = octets.split_at(options_end(octets));
        if !are_zero(rest) {
            return None;
        }
        let (_, from_addr) = octets.split_at(ADDR);
        let (_, from_mac) = octets.split_at(MAC);
        let (_, from_timeout) = octets.split_at(LEAST_TIMEOUT);
        let mac = from_mac.first_chunk::<6>()?;
        Some(Config {
            mac: Mac(*mac),
            addr: LittleEndian::read_u32(from_addr),
            scales: no_window_scale == 0,
            minshall: minshall == 1,
            recovery: recovery_of(recovery),
            first_segments: octets[FIRST_SEGMENTS],
            least_timeout: least_timeout_of(LittleEndian::read_u16(from_timeout)),
            first_threshold: first_threshold_of(first_threshold_in(octets)),
            guards: guards == 1,
            sizes: sizes_in(octets),
        })
    }
}

/// How many octets of a config are known, up to the end of its last option: those of one of fewer than 44 end before the first threshold, those
/// of one of 44 behind it, and those of one of fewer than 60 before its sizes.
fn options_end(octets: &[u8]) -> usize
    ensures value { result ≡ options_end octets.now }
    ensures within { 40 ≤ length octets.now → result ≤ length octets.now }
{
    if octets.len() < WITH_THRESHOLD {
        LEAST
    } else if octets.len() < WITH_GUARDS {
        WITH_THRESHOLD
    } else if octets.len() < WHOLE {
        WITH_GUARDS
    } else {
        WHOLE
    }
}

/// The first slow start threshold in these octets; 0 where they are too few to have one.
fn first_threshold_in(octets: &[u8]) -> u32
    ensures { result ≡ first_threshold_in octets.now }
{
    if octets.len() < WITH_THRESHOLD {
        return 0;
    }
    let (_, from_threshold) = octets.split_at(FIRST_THRESHOLD);
    LittleEndian::read_u32(from_threshold)
}

/// The option to be on guard in these octets; 0 where they are too few to have it.
fn guards_in(octets: &[u8]) -> u8
    ensures { result ≡ guards_in octets.now }
{
    if octets.len() < WITH_GUARDS {
        0
    } else {
        octets[GUARDS]
    }
}

/// How large the host is by these octets.
fn sizes_in(octets: &[u8]) -> Sizes
    ensures { result ≡ sizes_in octets.now }
{
    let entries = long_at(octets, ENTRIES) as usize;
    let buffer = long_at(octets, BUFFER) as usize;
    let reassemblies = usize::from(octet_at(octets, REASSEMBLIES));
    let replies = usize::from(octet_at(octets, REPLIES));
    let neighbours = usize::from(short_at(octets, NEIGHBOURS));
    let reassembly_octets = usize::from(short_at(octets, REASSEMBLY_OCTETS));
    let usual = Sizes::USUAL;
    Sizes {
        entries: or_usual(usual.entries, entries),
        buffer: or_usual(usual.buffer, buffer),
        reassemblies: if octet_at(octets, NO_REASSEMBLY) == 1 {
            0
        } else {
            or_usual(usual.reassemblies, reassemblies)
        },
        reassembly_octets: or_usual(usual.reassembly_octets, reassembly_octets),
        replies: or_usual(usual.replies, replies),
        neighbours: or_usual(usual.neighbours, neighbours),
    }
}

/// The octet at a place among the sizes; 0 where these octets are too few to have them.
fn octet_at(octets: &[u8], place: usize) -> u8
    requires { place < 60 }
    ensures { result ≡ octet_at place octets.now }
{
    if octets.len() < WHOLE {
        0
    } else {
        octets[place]
    }
}

/// The number of 16 bits from a place on among the sizes; 0 where these octets are too few to have them.
fn short_at(octets: &[u8], place: usize) -> u16
    requires { place ≤ 58 }
    ensures { result ≡ number_at place 2 octets.now }
{
    if octets.len() < WHOLE {
        return 0;
    }
    let (_, from) = octets.split_at(place);
    LittleEndian::read_u16(from)
}

/// The number of 32 bits from a place on among the sizes; 0 where these octets are too few to have them.
fn long_at(octets: &[u8], place: usize) -> u32
    requires { place ≤ 56 }
    ensures { result ≡ number_at place 4 octets.now }
{
    if octets.len() < WHOLE {
        return 0;
    }
    let (_, from) = octets.split_at(place);
    LittleEndian::read_u32(from)
}

/// A number, or where it is 0 the usual one.
fn or_usual(usual: usize, number: usize) -> usize
    ensures { result ≡ or_usual usual number }
{
    if number == 0 { usual } else { number }
}

/// How losses are repaired by this number: 1 is NewReno, and 2 that with selective acknowledgements.
fn recovery_of(number: u8) -> Recovery
    ensures { result ≡ recovery_of number }
{
    match number {
        1 => Recovery::NewReno,
        2 => Recovery::Selective,
        _ => Recovery::Plain,
    }
}

/// The least timeout by this number, in milliseconds: 0 is the usual second.
fn least_timeout_of(number: u16) -> u16
    ensures { result ≡ or_usual 1000 number }
{
    if number == 0 { 1_000 } else { number }
}

/// The first threshold by this number, in octets: 0 is the usual one.
fn first_threshold_of(number: u32) -> u32
    ensures { result ≡ or_usual 65535 number }
{
    if number == 0 { 65_535 } else { number }
}

/// Whether all of these are 0.
fn are_zero(octets: &[u8]) -> bool
    ensures { IsTrue result ↔ All (λ octet. octet ≡ 0) octets.now }
{
    octets.iter().all(|octet| *octet == 0)
}
