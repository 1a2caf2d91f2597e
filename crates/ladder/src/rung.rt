//! The rungs of a ladder.

ghost use Rattle.std.specs.Prelude.{◌≡◌, ◌<◌, ◌++◌, OnOk, IfOk, replicate, string_bytes};
ghost use Rattle.ladder.specs.Rungs.{arrow, brought_rung, head_of, landing, number_column, sent_rung, told_of};

use crate::passage::Fate;
use std::alloc::{AllocError, Global};
use wire_sim::Side;

/// The columns of a frame's number, in front of the uprights.
const NUMBER: usize = 6;

/// The columns between the uprights.
pub(crate) const RUNG_WIDTH: usize = 72;

/// The rung of a frame that a side sent, with a text at its tail. It ends in `x` where the frame never arrives.
pub(crate) fn sent_rung(
    alloc: Global,
    side: Side,
    index: usize,
    arrives: bool,
    text: &str,
) -> Result<String, AllocError>
    ensures { IfOk result (λ rung. string_bytes rung ≡ sent_rung side index arrives text.now) }
{
    let mut rung = number_column(alloc, index)?;
    push_arrow(side, arrives, text, &mut rung)?;
    Ok(rung)
}

/// The rung of a frame that was brought to a side, again where the frame reached the host before.
pub(crate) fn brought_rung(
    alloc: Global,
    side: Side,
    index: usize,
    fate: Fate,
    again: bool,
) -> Result<String, AllocError>
    ensures { IfOk result (λ rung. string_bytes rung ≡ brought_rung side index fate again) }
{
    let told = told(alloc, fate, again)?;
    let mut rung = number_column(alloc, index)?;
    push_landing(side, fate.reaches(), told.as_str(), &mut rung)?;
    Ok(rung)
}

/// A frame's number, in six columns at least.
fn number_column(alloc: Global, index: usize) -> Result<String, AllocError>
    ensures { IfOk result (λ column. string_bytes column ≡ number_column index) }
{
    let mut column = String::new(alloc);
    write!(column, "{index}")?;
    let missing = NUMBER.saturating_sub(column.len());
    push_fill(' ', missing, &mut column)?;
    Ok(column)
}

/// Adds an arrow from a side to the other, with a text at its tail.
fn push_arrow(side: Side, arrives: bool, text: &str, rung: &mut String) -> Result<(), AllocError>
    ensures { OnOk result (string_bytes rung.new ≡ string_bytes rung.old ++ arrow side arrives text.now) }
{
    let missing = (RUNG_WIDTH - 4).saturating_sub(text.len());
    match side {
        Side::A => {
            rung.push_str("|- ")?;
            rung.push_str(text)?;
            rung.push_str(" ")?;
            push_fill('-', missing, rung)?;
            rung.push_str(head(arrives, ">"))?;
            rung.push_str("|")
        }
        Side::B => {
            rung.push_str("|")?;
            rung.push_str(head(arrives, "<"))?;
            push_fill('-', missing, rung)?;
            rung.push_str(" ")?;
            rung.push_str(text)?;
            rung.push_str(" -|")
        }
    }
}

/// Adds the head of an arrow at a side, with a text at it.
fn push_landing(side: Side, arrives: bool, text: &str, rung: &mut String) -> Result<(), AllocError>
    ensures { OnOk result (string_bytes rung.new ≡ string_bytes rung.old ++ landing side arrives text.now) }
{
    let missing = (RUNG_WIDTH - 3).saturating_sub(text.len());
    match side {
        Side::A => {
            rung.push_str("| ")?;
            rung.push_str(text)?;
            rung.push_str(" ")?;
            rung.push_str(head(arrives, "<"))?;
            push_fill(' ', missing, rung)?;
            rung.push_str("|")
        }
        Side::B => {
            rung.push_str("|")?;
            push_fill(' ', missing, rung)?;
            rung.push_str(head(arrives, ">"))?;
            rung.push_str(" ")?;
            rung.push_str(text)?;
            rung.push_str(" |")
        }
    }
}

/// The head of an arrow, which is `x` where what it stands for doesn't arrive.
fn head<'a>(arrives: bool, head: &'a str) -> &'a str
    ensures { result.now ≡ head_of arrives head.entry.now }
{
    if arrives { head } else { "x" }
}

/// What a frame came to that was brought to a host.
fn told(alloc: Global, fate: Fate, again: bool) -> Result<String, AllocError>
    ensures { IfOk result (λ told. string_bytes told ≡ told_of fate again) }
{
    let mut told = String::new(alloc);
    match fate {
        Fate::Taken => told.push_str("taken")?,
        Fate::Dropped(cause) => write!(told, "drop F{}", cause.number())?,
        Fate::Refused(refusal) => write!(told, "{refusal}")?,
    }
    if again {
        told.push_str(" again")?;
    }
    Ok(told)
}

/// Adds an octet of text so many times.
pub(crate) fn push_fill(fill: char, count: usize, line: &mut String) -> Result<(), AllocError>
    requires { fill < 128 }
    ensures { OnOk result (string_bytes line.new ≡ string_bytes line.old ++ replicate count fill) }
{
    for _ in 0..count {
        line.push(fill)?;
    }
    Ok(())
}
