//! The record of a run, and its ladder.

ghost use Rattle.std.specs.Prelude.{◌≡◌, ◌||◌, ◌++◌, ℕ, OnOk, IfOk, codes, slice_get, string_bytes};
ghost use Rattle.ladder.specs.Text.{text_of};
ghost use Rattle.ladder.specs.Rungs.{sent_rung};
ghost use Rattle.ladder.specs.Passages.{brings, number_of};
ghost use Rattle.ladder.specs.Arrivals.{has_number};
ghost use Rattle.ladder.specs.Ladder.{arrives_in, ended, fitted, heard_of, is_arrival, ladder_of, line_with, names_line, node_to, octets_of, rung_with, syns_by};

use crate::arrivals::Arrivals;
use crate::happened::Happened;
use crate::nodes::Nodes;
use crate::numbers::{Numbering, Syn};
use crate::passage::Passage;
use crate::rung::{RUNG_WIDTH, brought_rung, push_fill, sent_rung};
use crate::text::{note_syn, push_text};
use std::alloc::{AllocError, Global};
use std::marker::Model;
use wire_sim::{Side, World};

/// The columns of a line at most.
const LINE_WIDTH: usize = 80;

/// A run that is to be told: the world in which it ended, its two hosts, how numbers are told, and all that happened, in order.
#[derive(Drop)]
pub struct Run<'a> {
    /// The world in which it ended.
    pub world: &'a World,
    /// Its two hosts.
    pub nodes: Nodes,
    /// How the numbers of segments are told.
    pub numbering: Numbering,
    /// All that happened, in order.
    pub happened: &'a [Happened<'a>],
}

impl<'a> Model for Run<'a> {
    ghost use Rattle.ladder.specs.Arrivals.{has_number};
    ghost use Rattle.ladder.specs.Ladder.{RunView};

    ghost Value = { RunView };

    ghost view = { λ run. record {
      frames = run.world.now.seen.network.frames;
      nodes = run.nodes;
      numbering = run.numbering;
      happened = run.happened.now;
    } };
}

/// What was seen of a run so far: the SYNs that went out, and the frames that reached a host.
#[derive(Drop)]
struct Seen {
    syns: Vec<Syn>,
    arrivals: Arrivals,
}

impl<'a> Run<'a> {
    /// The ladder of the run: its lines of 80 columns at most, each with a newline behind it. An error is want of memory.
    pub fn ladder(&self, alloc: Global) -> Result<Vec<u8>, AllocError>
        ensures { IfOk result (λ ladder. ladder.items ≡ ladder_of self.now) }
    {
        let ever = self.arrivals(alloc)?;
        let mut ladder = Vec::new(alloc);
        push_line(names(alloc)?.as_bytes(), &mut ladder)?;
        let mut seen = Seen {
            syns: Vec::new(alloc),
            arrivals: Arrivals::new(alloc),
        };
        for thing in self.happened {
            self.push_happened(alloc, thing, &ever, &mut seen, &mut ladder)?;
        }
        Ok(ladder)
    }

    /// The frames that reach a host in the whole run.
    fn arrivals(&self, alloc: Global) -> Result<Arrivals, AllocError>
        ensures { IfOk result (λ arrivals. (index : ℕ) → has_number arrivals index ≡ arrives_in index self.now.happened) }
    {
        let mut arrivals = Arrivals::new(alloc);
        for thing in self.happened {
            if let Happened::Passed(passage) = thing {
                arrivals.note(*passage)?;
            }
        }
        Ok(arrivals)
    }

    /// Adds the line of what happened, and what is seen by it to what was seen before.
    fn push_happened(
        &self,
        alloc: Global,
        thing: &Happened<'_>,
        ever: &Arrivals,
        seen: &mut Seen,
        ladder: &mut Vec<u8>,
    ) -> Result<(), AllocError>
        ensures line { OnOk result (ladder.new.items
            ≡ ladder.old.items ++ ended (fitted (line_with self.now (has_number ever.now) (has_number seen.old.arrivals) seen.new.syns.items thing.now))) }
        ensures syns { OnOk result (seen.new.syns.items ≡ seen.old.syns.items ++ syns_by self.now thing.now) }
        ensures arrivals { OnOk result ((index : ℕ) → has_number seen.new.arrivals index ≡ (has_number seen.old.arrivals index || is_arrival index thing.now)) }
    {
        match thing {
            Happened::Said(line) => push_line(line.octets(), ladder),
            Happened::Passed(passage) => {
                let rung = self.rung(alloc, *passage, ever, seen)?;
                push_line(rung.as_bytes(), ladder)
            }
            Happened::Printed(text) => {
                let line = printed(alloc, text.printed())?;
                push_line(line.as_bytes(), ladder)
            }
        }
    }

    /// The rung of what happened to a frame. What is seen by it is added to what was seen before.
    fn rung(
        &self,
        alloc: Global,
        passage: Passage,
        ever: &Arrivals,
        seen: &mut Seen,
    ) -> Result<String, AllocError>
        ensures rung { IfOk result (λ rung. string_bytes rung
            ≡ rung_with self.now (has_number ever.now (number_of passage)) (has_number seen.old.arrivals (number_of passage)) seen.new.syns.items passage) }
        ensures syns { OnOk result (seen.new.syns.items ≡ seen.old.syns.items ++ syns_by self.now (Happened.Passed passage)) }
        ensures arrivals { OnOk result ((index : ℕ) → has_number seen.new.arrivals index ≡ (has_number seen.old.arrivals index || brings index passage)) }
    {
        match passage {
            Passage::Sent(side, index) => {
                self.sent(alloc, side, index, ever.has(index), &mut seen.syns)
            }
            Passage::Brought(side, index, fate) => {
                let again = seen.arrivals.has(index);
                seen.arrivals.note(passage)?;
                brought_rung(alloc, side, index, fate, again)
            }
        }
    }

    /// The rung of a frame that a side sent, which arrives or doesn't. Its SYN is added to those that were seen before.
    fn sent(
        &self,
        alloc: Global,
        side: Side,
        index: usize,
        arrives: bool,
        syns: &mut Vec<Syn>,
    ) -> Result<String, AllocError>
        ensures rung { IfOk result (λ rung. let to = node_to self.now side in string_bytes rung
            ≡ sent_rung side index arrives (text_of self.now.numbering syns.new.items to.addr (heard_of self.now side index))) }
        ensures syns { OnOk result (syns.new.items ≡ syns.old.items ++ syns_by self.now (Happened.Passed (Passage.Sent side index))) }
    {
        let to = self.nodes.of(side.other());
        let heard = frames::read(to.mac, to.addr, self.octets(index));
        note_syn(to.addr, &heard, syns)?;
        let mut text = String::new(alloc);
        push_text(self.numbering, syns.as_slice(), to.addr, &heard, &mut text)?;
        sent_rung(alloc, side, index, arrives, text.as_str())
    }

    /// The octets of the frame with this number.
    fn octets(&self, index: usize) -> &'a [u8]
        ensures { result.now ≡ octets_of (slice_get self.now.frames index) }
    {
        match self.world.frame(index) {
            Some(octets) => octets,
            None => &[],
        }
    }
}

/// The names of the two sides, at the top of the uprights.
fn names(alloc: Global) -> Result<String, AllocError>
    ensures { IfOk result (λ names. string_bytes names ≡ names_line) }
{
    let mut names = String::from_str(alloc, "      a")?;
    push_fill(' ', RUNG_WIDTH, &mut names)?;
    names.push_str("b")?;
    Ok(names)
}

/// The line of what was printed, two columns in.
fn printed(alloc: Global, text: &str) -> Result<String, AllocError>
    ensures { IfOk result (λ line. string_bytes line ≡ codes "  " ++ text.now) }
{
    let mut line = String::from_str(alloc, "  ")?;
    line.push_str(text)?;
    Ok(line)
}

/// Adds a line with its end. A line of more than 80 columns is cut and ends in two points.
fn push_line(line: &[u8], ladder: &mut Vec<u8>) -> Result<(), AllocError>
    ensures { OnOk result (ladder.new.items ≡ ladder.old.items ++ ended (fitted line.now)) }
{
    if line.len() <= LINE_WIDTH {
        ladder.extend_from_slice(line)?;
    } else {
        ladder.extend_from_slice(&line[..LINE_WIDTH - 2])?;
        ladder.extend_from_slice(b"..")?;
    }
    ladder.extend_from_slice(b"\n")
}
