//! A round without loss: what is due at one side comes to the other, the answers come back, and the other side reads.

ghost use Rattle.std.specs.Prelude.{◌≡◌, ◌<◌, ◌≤◌, ◌+◌, ◌-◌, ℕ, length, None, IfOk, IfErr, OnOk, OnErr};
ghost use Rattle.std.specs.List.{range_with_len};

use super::World;
use crate::event::{Answer, Call, Event, Unfair};
use clock::Moment;
use host::SocketId;
use sides::Side;
use tcp_segment::Seq;

/// The milliseconds that pass in a round.
const MINUTE: u64 = 60_000;

/// How many frames of one side go out in a round at most.
const MOST_FRAMES: usize = 64;

/// How many octets each receive of a round has room for.
const READ_AT_ONCE: usize = 4_096;

/// The initial sequence number of a connection that a round opens.
const ISN: Seq = Seq(0);

impl World {
    ghost use Rattle.sides.specs.Sides.{other_side};
    ghost use Rattle.sockets.specs.declared.entry.SocketId.{SocketId};
    ghost use Rattle.tcp_state.specs.View.{View};
    ghost use Rattle.wire_sim.specs.Datagrams.{DatagramLaw};
    ghost use Rattle.wire_sim.specs.Progress.{MayMove, HasMoved};
    ghost use Rattle.wire_sim.specs.RoomyRuns.{MayWantMemory, IsStopped};
    ghost use Rattle.wire_sim.specs.Rounds.{most_frames, PassesMinute, Sends, Emits, IsBrought, Brings, Carries, Receives, Reads, IsRound, BeginsToCarry};
    ghost use Rattle.wire_sim.specs.Runs.{unfair, IsReached};
    ghost use Rattle.wire_sim.specs.Trace.{StreamLaw};
    ghost use Rattle.wire_sim.specs.WorldRoom.{HasRoom, KeepsRoom};
    ghost use Rattle.wire_sim.specs.WorldView.{clock_of};

    /// A round without loss, of steps alone: a minute passes at the writer's host and then at the other, which is the reader's; the writer's emits until it has no
    /// frame, 64 times at most, and these frames are delivered to the reader's in order, with the initial sequence number 0; its answers go the same way
    /// back; and it receives on the socket `reader_id`, into 4,096 octets at a time, until it is refused or the stream ends. Answers how many octets it read.
    ///
    /// A delivery that a rule refuses is passed over. NoMemory is the one refusal: the round stops where it stands, and what was done stays in the trace. It comes only
    /// for an emission, for a receive, or where a list is as long as it had room for as the round began; so after `reserve(258)` for no tick and no delivery. No list
    /// has less room in the end.
    pub fn round(&mut self, writer: Side, reader_id: SocketId) -> Result<u64, Unfair>
        ensures rounds { IfOk result (λ count. IsRound writer reader_id count self.old.seen self.new.seen) }
        ensures refused { IfErr result (λ refusal. refusal ≡ Unfair.NoMemory) }
        ensures stopped { OnErr result (IsStopped writer reader_id self.old self.new) }
        ensures room { KeepsRoom self.old.room self.new.room }
        ensures reached { IsReached self.new.seen.network.limit self.new.seen }
        ensures lawful { StreamLaw self.new.seen.trace self.new.seen.network.openings }
        ensures datagrams { (run : IsReached self.new.seen.network.limit self.new.seen) → DatagramLaw self.new.seen.network.limit self.new.seen run }
        ensures moves { OnOk result ((writer_id : SocketId) (v d : View) → MayMove writer writer_id reader_id v d self.old.seen → HasMoved writer writer_id reader_id v d self.old.seen self.new.seen) }
    {
        let reader = writer.other();
        self.pass_minute(writer)?;
        self.pass_minute(reader)?;
        self.carry(writer)?;
        self.carry(reader)?;
        self.read_all(reader, reader_id)
    }

    /// A minute passes at a side.
    fn pass_minute(&mut self, side: Side) -> Result<(), Unfair>
        ensures passed { OnOk result (PassesMinute side self.old.seen self.new.seen) }
        ensures refused { IfErr result (λ refusal. refusal ≡ Unfair.NoMemory) }
        ensures kept { OnErr result (self.new.seen ≡ self.old.seen) }
        ensures full { OnErr result (¬ HasRoom self.old) }
        ensures room { KeepsRoom self.old.room self.new.room }
        ensures before { IsReached self.old.seen.network.limit self.old.seen }
        ensures reached { IsReached self.new.seen.network.limit self.new.seen }
    {
        let now = self.clock(side);
        let later = Moment(now.0.saturating_add(MINUTE));
        self.step(Event::Tick(side, later))?;
        Ok(())
    }

    /// What the clock of a side's host shows.
    fn clock(&self, side: Side) -> Moment
        ensures shows { result ≡ clock_of self.now.seen.network side }
        ensures reached { IsReached self.now.seen.network.limit self.now.seen }
    {
        self.network.clock(side)
    }

    /// How many frames went out so far.
    fn frames(&self) -> usize
        ensures { result ≡ length self.now.seen.network.frames }
    {
        self.network.frames()
    }

    /// All that is due at a side goes to the other. The frames of one emission after the other stand side by side in the bag.
    fn carry(&mut self, from: Side) -> Result<(), Unfair>
        ensures carried { OnOk result (Carries from self.old.seen self.new.seen) }
        ensures refused { IfErr result (λ refusal. refusal ≡ Unfair.NoMemory) }
        ensures begun { OnErr result ((next : Event) × BeginsToCarry from self.old.seen next self.new.seen × MayWantMemory next self.old self.new) }
        ensures room { KeepsRoom self.old.room self.new.room }
        ensures reached { OnErr result (IsReached self.new.seen.network.limit self.new.seen) }
    {
        let first = self.frames();
        self.emit_all(from)?;
        let end = self.frames();
        self.bring_all(from.other(), first, end)
    }

    /// A side emits until it has no frame, 64 times at most.
    fn emit_all(&mut self, side: Side) -> Result<(), Unfair>
        ensures emitted { OnOk result ((count : ℕ) × (length self.new.seen.network.frames ≡ length self.old.seen.network.frames + count)
            × Emits most_frames side (range_with_len (length self.old.seen.network.frames) count) self.old.seen self.new.seen) }
        ensures refused { IfErr result (λ refusal. refusal ≡ Unfair.NoMemory) }
        ensures begun { OnErr result (BeginsToCarry side self.old.seen (Event.Emit side) self.new.seen) }
        ensures room { KeepsRoom self.old.room self.new.room }
        ensures reached { OnErr result (IsReached self.new.seen.network.limit self.new.seen) }
    {
        for _ in 0..MOST_FRAMES {
            if let Answer::NoFrame = self.step(Event::Emit(side))? {
                return Ok(());
            }
        }
        Ok(())
    }

    /// The frames from `first` on and below `end` come to a side in order.
    fn bring_all(&mut self, to: Side, first: usize, end: usize) -> Result<(), Unfair>
        requires { first ≤ end }
        ensures brought { OnOk result (Brings to (range_with_len first (end - first)) self.old.seen self.new.seen) }
        ensures refused { IfErr result (λ refusal. refusal ≡ Unfair.NoMemory) }
        ensures begun { OnErr result ((count : ℕ) × (count < end - first) × Brings to (range_with_len first count) self.old.seen self.new.seen
            × (unfair self.new.seen (Event.Deliver to (first + count) ISN) ≡ None)) }
        ensures full { OnErr result (¬ HasRoom (record { seen = self.new.seen; room = self.old.room })) }
        ensures room { KeepsRoom self.old.room self.new.room }
        ensures reached { OnErr result (IsReached self.new.seen.network.limit self.new.seen) }
    {
        for index in first..end {
            self.bring(to, index)?;
        }
        Ok(())
    }

    /// A frame comes to a side, or a rule refuses that.
    fn bring(&mut self, to: Side, index: usize) -> Result<(), Unfair>
        ensures brought { OnOk result (IsBrought to index self.old.seen self.new.seen) }
        ensures refused { IfErr result (λ refusal. refusal ≡ Unfair.NoMemory) }
        ensures fair { OnErr result (unfair self.new.seen (Event.Deliver to index ISN) ≡ None) }
        ensures kept { OnErr result (self.new.seen ≡ self.old.seen) }
        ensures full { OnErr result (¬ HasRoom self.old) }
        ensures room { KeepsRoom self.old.room self.new.room }
        ensures reached { IsReached self.new.seen.network.limit self.new.seen }
    {
        match self.step(Event::Deliver(to, index, ISN)) {
            Err(Unfair::NoMemory) => Err(Unfair::NoMemory),
            _ => Ok(()),
        }
    }

    /// A side reads on a socket until it is refused or the stream ends. Answers how many octets it read.
    fn read_all(&mut self, side: Side, id: SocketId) -> Result<u64, Unfair>
        ensures read { IfOk result (λ count. Reads side id count self.old.seen self.new.seen) }
        ensures refused { IfErr result (λ refusal. refusal ≡ Unfair.NoMemory) }
        ensures begun { OnErr result ((count : ℕ) × Receives side id count self.old.seen self.new.seen) }
        ensures room { KeepsRoom self.old.room self.new.room }
        ensures reached { IsReached self.new.seen.network.limit self.new.seen }
    {
        self.network.sound();
        let mut count = 0;
        while let Answer::Octets(octets) = self.step(Event::Call(
            side,
            Call::Recv {
                id,
                len: READ_AT_ONCE,
            },
        ))? {
            count += octets.len() as u64;
        }
        Ok(count)
    }
}
