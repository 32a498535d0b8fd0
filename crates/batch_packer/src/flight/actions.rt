//! Polls and commands of the probe, each in packets of its own.
ghost use Rattle.std.specs.Prelude.{◌≡◌, [], true, false, None, Some, IfSome, MatchResult};
ghost use Rattle.target_machine.specs.InRange.{IsInRange};
ghost use Rattle.dap_messages.specs.Commands.{command_bytes, command_value, packet_bytes};
ghost use Rattle.probe_core.specs.Probe.{target_of};
ghost use Rattle.batch_packer.specs.Commands.{DoneBy, IsSingle, end_in, number_read};
ghost use Rattle.batch_packer.specs.Exchanges.{GoesOnOver, HasAsked, IsOpen, StepsWhere};
ghost use Rattle.batch_packer.specs.FlightEnds.{EndsOver, HasEndCause, got_replies};
ghost use Rattle.batch_packer.specs.FlightStates.{MaySend, items_kept};
ghost use Rattle.batch_packer.specs.Flying.{CanFly};
ghost use Rattle.batch_packer.specs.Polling.{AreTurns, PollsBy, matched_read, packet_of};

use super::Flight;
use crate::ends::FlightEnd;
use crate::poll::{PollAsk, send_poll};
use crate::single::send_single;
use dap_messages::Command;
use probe_core::{Bench, Config};

impl Flight {
    // Sends a command of a flight that has not ended.
    fn command_now<B: Bench>(
        &mut self,
        bench: &mut B,
        command: &Command<'_>,
    ) -> Result<u32, FlightEnd>
        requires free { MaySend self.old (B.reported bench.old) }
        requires command { IsSingle (command_value command.now) }
        ensures done { StepsWhere (λ m. IsInRange (target_of m.probe)) (DoneBy (command_value command.now) result)
            (B.state bench.old) (B.state bench.new) }
        ensures read { got_replies (end_in result) ≡ true
            → result ≡ number_read (command_value command.now) (B.reported bench.new).last.replies }
        ensures asked { got_replies (end_in result) ≡ true
            → HasAsked (command_bytes (command_value command.now)) (B.reported bench.old) (B.reported bench.new) }
        ensures flight { self.new ≡ record self.old {
          end = end_in result;
          resumable = false;
          packets = items_kept (end_in result) (B.reported bench.new).last.packets;
          replies = items_kept (end_in result) (B.reported bench.new).last.replies;
          at = 0;
        } }
        ensures keeps { EndsOver B.reported B.state B.identity (end_in result) bench.old bench.new }
    {
        self.begin();
        let result = send_single(
            command,
            &mut self.packets,
            &mut self.replies,
            &mut self.bytes,
            bench,
        );
        self.note_end(result.err());
        result
    }

    /// Sends a command of the probe that is no Transfer and no block of writes, in one packet, and reads
    /// its reply. It answers the levels of the pins for `Pins`, the packet size or packet count for `Info`,
    /// and else 0.
    ///
    /// It needs an empty flight, and a bench that holds no packet and in which no reply waits. After `Ok`
    /// the bench again holds no packet, and no reply waits.
    ///
    /// - `ReplyBad`: the received reply is none that the command may get.
    /// - `BenchFault`: a bench call failed; the command was done or not.
    ///
    /// After either the flight has ended.
    pub fn command<B: Bench>(
        &mut self,
        bench: &mut B,
        command: &Command<'_>,
    ) -> Result<u32, FlightEnd>
        requires open { self.old.end ≡ None → IsOpen (B.reported bench.old) }
        requires empty { self.old.end ≡ None → self.old.accesses ≡ [] }
        requires command { IsSingle (command_value command.now) }
        // The answer is a number, or the end of the flight.
        ensures answer { MatchResult result (λ _. self.new.end ≡ None) (λ end. self.new.end ≡ Some end) }
        // A flight that has ended stays as it is, with its end, and so does the bench.
        ensures again { IfSome self.old.end (λ _. self.new ≡ self.old) }
        ensures again_reported { IfSome self.old.end (λ _. B.reported bench.new ≡ B.reported bench.old) }
        ensures again_state { IfSome self.old.end (λ _. B.state bench.new ≡ B.state bench.old) }
        // What was done, and the number, where the bench is observable.
        ensures done { self.old.end ≡ None → StepsWhere (λ m. IsInRange (target_of m.probe)) (DoneBy (command_value command.now) result)
            (B.state bench.old) (B.state bench.new) }
        // Unless the bench failed, the answer is what the reply to this call says.
        ensures read { self.old.end ≡ None → got_replies self.new.end ≡ true
            → result ≡ number_read (command_value command.now) (B.reported bench.new).last.replies }
        ensures asked { self.old.end ≡ None → got_replies self.new.end ≡ true
            → HasAsked (command_bytes (command_value command.now)) (B.reported bench.old) (B.reported bench.new) }
        // At a bad reply its packet and the reply are kept.
        ensures packets { self.old.end ≡ None → self.new.packets ≡ items_kept self.new.end (B.reported bench.new).last.packets }
        ensures replies { self.old.end ≡ None → self.new.replies ≡ items_kept self.new.end (B.reported bench.new).last.replies }
        ensures at { self.old.end ≡ None → self.new.at ≡ 0 }
        ensures empty { self.old.end ≡ None → self.new.accesses ≡ [] }
        ensures limits { self.new.limits ≡ self.old.limits }
        ensures resumable { self.old.end ≡ None → self.new.resumable ≡ false }
        ensures keeps { GoesOnOver B.reported B.state B.identity bench.old bench.new }
        // A fault of the bench comes only where its count rose.
        ensures cause { self.old.end ≡ None → HasEndCause (B.reported bench.old).faults (B.reported bench.new).faults self.new.end }
    {
        match self.end {
            Some(end) => Err(end),
            None => self.command_now(bench, command),
        }
    }

    // Sends a portion of a poll of a flight that has not ended.
    fn poll_now<B: Bench>(
        &mut self,
        bench: &mut B,
        config: Config,
        ask: PollAsk,
    ) -> Result<bool, FlightEnd>
        requires free { MaySend self.old (B.reported bench.old) }
        requires turns { AreTurns ask.turns }
        ensures polled { StepsWhere CanFly (PollsBy config ask result)
            (B.state bench.old) (B.state bench.new) }
        ensures read { got_replies (end_in result) ≡ true → result ≡ matched_read config ask (B.reported bench.new).last.replies }
        ensures asked { got_replies (end_in result) ≡ true
            → HasAsked (packet_bytes (packet_of config ask)) (B.reported bench.old) (B.reported bench.new) }
        ensures flight { self.new ≡ record self.old {
          end = end_in result;
          resumable = false;
          packets = items_kept (end_in result) (B.reported bench.new).last.packets;
          replies = items_kept (end_in result) (B.reported bench.new).last.replies;
          at = 0;
        } }
        ensures keeps { EndsOver B.reported B.state B.identity (end_in result) bench.old bench.new }
    {
        self.begin();
        let result = send_poll(
            config,
            ask,
            &mut self.packets,
            &mut self.replies,
            &mut self.bytes,
            bench,
        );
        self.note_end(result.err());
        result
    }

    /// Makes one portion of a poll of CTRL/STAT in one packet: it is read until the value under the mask is
    /// the requested one, at most so many turns. It answers whether the register matched. `config` is set
    /// again, with match retry 0 after the poll.
    ///
    /// It needs an empty flight, 1 to 65,536 turns, and a bench that holds no packet and in which no reply
    /// waits. After `Ok` the bench again holds no packet, and no reply waits.
    ///
    /// - `Cut`: the reply says 02 or 04; it names no access. Where DPBANKSEL is 0, no read waits or faults.
    /// - `ReplyBad`: the received reply is none that the packet may get.
    /// - `BenchFault`: a bench call failed; the poll was made or not.
    ///
    /// After any of the three the flight has ended.
    pub fn poll<B: Bench>(
        &mut self,
        bench: &mut B,
        config: Config,
        ask: PollAsk,
    ) -> Result<bool, FlightEnd>
        requires open { self.old.end ≡ None → IsOpen (B.reported bench.old) }
        requires empty { self.old.end ≡ None → self.old.accesses ≡ [] }
        requires turns { AreTurns ask.turns }
        // The answer is whether the register matched, or the end of the flight.
        ensures answer { MatchResult result (λ _. self.new.end ≡ None) (λ end. self.new.end ≡ Some end) }
        // A flight that has ended stays as it is, with its end, and so does the bench.
        ensures again { IfSome self.old.end (λ _. self.new ≡ self.old) }
        ensures again_reported { IfSome self.old.end (λ _. B.reported bench.new ≡ B.reported bench.old) }
        ensures again_state { IfSome self.old.end (λ _. B.state bench.new ≡ B.state bench.old) }
        // What was done, where the bench is observable and DPBANKSEL is 0: the reads one at a time.
        ensures polled { self.old.end ≡ None
            → StepsWhere CanFly (PollsBy config ask result) (B.state bench.old) (B.state bench.new) }
        // Unless the bench failed, the answer is what the reply to this call says.
        ensures read { self.old.end ≡ None → got_replies self.new.end ≡ true
            → result ≡ matched_read config ask (B.reported bench.new).last.replies }
        ensures asked { self.old.end ≡ None → got_replies self.new.end ≡ true
            → HasAsked (packet_bytes (packet_of config ask)) (B.reported bench.old) (B.reported bench.new) }
        // At a cut or a bad reply the packet and the reply are kept.
        ensures packets { self.old.end ≡ None → self.new.packets ≡ items_kept self.new.end (B.reported bench.new).last.packets }
        ensures replies { self.old.end ≡ None → self.new.replies ≡ items_kept self.new.end (B.reported bench.new).last.replies }
        ensures at { self.old.end ≡ None → self.new.at ≡ 0 }
        ensures empty { self.old.end ≡ None → self.new.accesses ≡ [] }
        ensures limits { self.new.limits ≡ self.old.limits }
        ensures resumable { self.old.end ≡ None → self.new.resumable ≡ false }
        ensures keeps { GoesOnOver B.reported B.state B.identity bench.old bench.new }
        // A fault of the bench comes only where its count rose.
        ensures cause { self.old.end ≡ None → HasEndCause (B.reported bench.old).faults (B.reported bench.new).faults self.new.end }
    {
        match self.end {
            Some(end) => Err(end),
            None => self.poll_now(bench, config, ask),
        }
    }
}
