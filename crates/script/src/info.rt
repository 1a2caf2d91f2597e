//! How it is printed how a connection stands.

ghost use Rattle.std.specs.Prelude.{◌≡◌, ◌++◌, OnOk, option_map, codes, string_bytes};
ghost use Rattle.std.specs.Fmt.{decimal};
ghost use Rattle.script.specs.Info.{below, estimate_fields, info_text, line_below, moment_fields, moment_text, or_none, timeout_fields, waiting_fields, window_fields};
ghost use Rattle.sockets.specs.Calls.{refusal_of};
ghost use Rattle.sockets.specs.Names.{refusal_text};

use clock::Moment;
use host::{Info, Refusal};
use std::alloc::AllocError;

/// Adds how a connection stands to `text`: a line for each field, with its name and its value, and a newline between one and the next.
pub(crate) fn show_info(info: &Info, text: &mut String) -> Result<(), AllocError>
    ensures { OnOk result (string_bytes text.new ≡ string_bytes text.old ++ info_text info.now) }
{
    write!(text, "state {}", info.state)?;
    show_waiting(info, text)?;
    show_windows(info, text)?;
    show_estimate(info, text)?;
    show_timeout(info, text)?;
    show_moments(info, text)
}

/// How much waits, each way.
fn show_waiting(info: &Info, text: &mut String) -> Result<(), AllocError>
    ensures { OnOk result (string_bytes text.new ≡ string_bytes text.old ++ below (waiting_fields info.now)) }
{
    show_number("in_flight", u64::from(info.in_flight), text)?;
    show_number("held", info.held as u64, text)?;
    show_number("unsent", info.unsent as u64, text)?;
    show_number("readable", info.readable as u64, text)?;
    show_number("kept", info.kept as u64, text)
}

/// The windows, and how much goes out by them.
fn show_windows(info: &Info, text: &mut String) -> Result<(), AllocError>
    ensures { OnOk result (string_bytes text.new ≡ string_bytes text.old ++ below (window_fields info.now)) }
{
    show_number("peer_window", u64::from(info.peer_window), text)?;
    show_number("own_window", u64::from(info.own_window), text)?;
    show_number("smss", info.smss as u64, text)?;
    show_number("cwnd", u64::from(info.cwnd), text)?;
    show_number("ssthresh", u64::from(info.ssthresh), text)
}

/// What the round trips tell, once one was measured.
fn show_estimate(info: &Info, text: &mut String) -> Result<(), AllocError>
    ensures { OnOk result (string_bytes text.new ≡ string_bytes text.old ++ below (estimate_fields info.now)) }
{
    match info.estimate {
        Some(estimate) => {
            show_number("srtt_8", u64::from(estimate.s8), text)?;
            show_number("rttvar_4", u64::from(estimate.v4), text)
        }
        None => text.push_str("\nsrtt_8 none\nrttvar_4 none"),
    }
}

/// The timeout, and what was lost.
fn show_timeout(info: &Info, text: &mut String) -> Result<(), AllocError>
    ensures { OnOk result (string_bytes text.new ≡ string_bytes text.old ++ below (timeout_fields info.now)) }
{
    show_number("rto", u64::from(info.rto), text)?;
    show_number("expiries", u64::from(info.expiries), text)?;
    show_number("resent", info.resent, text)?;
    show_error(info.error, text)
}

/// The moments at which something is due of itself.
fn show_moments(info: &Info, text: &mut String) -> Result<(), AllocError>
    ensures { OnOk result (string_bytes text.new ≡ string_bytes text.old ++ below (moment_fields info.now)) }
{
    let timers = info.timers;
    show_moment("retransmission", timers.retransmission, text)?;
    show_moment("probe", timers.probe, text)?;
    show_moment("delayed_ack", timers.delayed_ack, text)?;
    show_moment("override", timers.overriding, text)?;
    show_moment("ends", info.ends_at, text)
}

/// A line below another: a name, and a number.
fn show_number(name: &str, number: u64, text: &mut String) -> Result<(), AllocError>
    ensures { OnOk result (string_bytes text.new ≡ string_bytes text.old ++ line_below (name.now, decimal number)) }
{
    write!(text, "\n{name} {number}")
}

/// A line below another: a name, and a moment in milliseconds or `none`.
fn show_moment(name: &str, moment: Option<Moment>, text: &mut String) -> Result<(), AllocError>
    ensures { OnOk result (string_bytes text.new ≡ string_bytes text.old ++ line_below (name.now, moment_text moment)) }
{
    match moment {
        Some(moment) => show_number(name, moment.0, text),
        None => write!(text, "\n{name} none"),
    }
}

/// The line of the error that every call reports from now on, or of `none`.
fn show_error(error: Option<tcp_state::Refusal>, text: &mut String) -> Result<(), AllocError>
    ensures { OnOk result (string_bytes text.new ≡ string_bytes text.old
        ++ line_below (codes "error", or_none (option_map (λ e. refusal_text (refusal_of e)) error))) }
{
    match error {
        Some(error) => write!(text, "\nerror {}", Refusal::from(error)),
        None => text.push_str("\nerror none"),
    }
}
