//! Flights, polls and commands over a bench.
ghost use Rattle.std.specs.Prelude.{◌≡◌, ◌≤◌, ◌+◌, ◌/◌, true, None, IfErr, IfOk, OnOk};
ghost use Rattle.target_machine.specs.Plain.{Commands, Polls};
ghost use Rattle.target_machine.specs.Sound.{IsSoundProbe};
ghost use Rattle.target_machine.specs.declared.unit.ProbeCall.TheVariants as probe;
ghost use Rattle.dap_messages.specs.Commands.{IsCommand, command_value};
ghost use Rattle.probe_core.specs.Ranges.{AreLimits};
ghost use Rattle.batch_packer.specs.Actions.{command_of};
ghost use Rattle.batch_packer.specs.Commands.{DoneBy, IsSingle};
ghost use Rattle.batch_packer.specs.Exchanges.{IsOpen, StepsWhere};
ghost use Rattle.batch_packer.specs.FlightStates.{item_at, new_flight};
ghost use Rattle.batch_packer.specs.Flying.{CanFly, IsWithin, TakesFlights};
ghost use Rattle.batch_packer.specs.SlotList.{slot_room};
ghost use Rattle.bench_flights.specs.Flown.{IsTargetInRange, IsUnnamed, LeftActionOff, StepsMatching, matched_word};
ghost use Rattle.bench_flights.specs.Opening.{least_of};
ghost use Rattle.bench_flights.specs.Flown.{SendsFew};
ghost use Rattle.bench_flights.specs.Wires.{AreHeld, HasMadeAction, HasRead, HaveWordValues, IsFree, IsOneCommand, KeepsUncut, KeepsWireWhole};
ghost use Rattle.bench_flights.specs.Wires.{MadeOrNot, MaySendCommand, MaySendPoll, ReadOrNot, unnamed_end};

use crate::flights::{Flights, Polled};
use batch_packer::{Cut, Flight, FlightEnd, PollAsk, Slots};
use dap_messages::Command;
use probe_core::{Bench, Config, Limits};
use std::alloc::Global;
use target_machine::registers::CTRL_STAT;
use target_machine::{ProbeCall, RegAccess};

/// Flights, polls and commands over a bench.
#[derive(Drop)]
pub struct Wire<B: Bench> {
    pub(crate) flight: Flight,
    pub(crate) slots: Slots,
    pub(crate) bench: B,
    // The bench has room for the packets of the flight, and the slots for its values. While the flight can be used, or
    // used again, the bench holds no packet, and no reply waits.
    ghost limits: { AreLimits flight.limits },
    ghost within: { IsWithin flight.limits (B.reported bench).limits },
    ghost room: { slot_room flight.limits ≤ slots.room },
    ghost held: { AreHeld flight.limits flight.accesses },
    ghost small: { HaveWordValues flight.accesses },
    ghost open: { flight.end ≡ None → IsOpen (B.reported bench) },
    ghost resumable: { flight.resumable ≡ true → IsOpen (B.reported bench) },
}

// The command of a call that needs only one.
fn command_of(call: ProbeCall) -> Command<'static>
    requires one { IsOneCommand call }
    ensures value { command_value result ≡ command_of call }
    ensures command { IsCommand (command_of call) }
{
    match call {
        ProbeCall::Delay(micros) => Command::Delay(micros as u16),
        ProbeCall::Abort(value) => Command::Abort(value),
        ProbeCall::Pins {
            output,
            select,
            wait,
        } => Command::Pins {
            output,
            select,
            wait,
        },
        ProbeCall::Clock(hertz) => Command::Clock(hertz),
        ProbeCall::Line { count, bits } => Command::Line { count, bits },
    }
}

// The same end, naming no access.
fn name_no_access(end: FlightEnd) -> FlightEnd
    ensures { result ≡ unnamed_end end }
{
    match end {
        FlightEnd::Cut(cut) => FlightEnd::Cut(Cut {
            performed: 0,
            confirmed: 0,
            response: cut.response,
        }),
        _ => end,
    }
}

impl<B: Bench> Wire<B> {
    pub(crate) fn new(alloc: Global, bench: B, limits: Limits) -> Result<Wire<B>, B>
        requires bench { TakesFlights limits (B.reported bench) }
        ensures bench { IfOk result (λ wire. wire.bench ≡ bench) }
        ensures flight { IfOk result (λ wire. wire.flight ≡ new_flight limits) }
        ensures back { IfErr result (λ back. back ≡ bench) }
    {
        let Ok(flight) = Flight::new(alloc, limits) else {
            return Err(bench);
        };
        let Ok(slots) = Slots::new(alloc, limits) else {
            return Err(bench);
        };
        Ok(Wire {
            flight,
            slots,
            bench,
        })
    }

    pub(crate) fn give_back(self) -> B
        ensures { result ≡ self.bench }
    {
        let Wire {
            flight: _,
            slots: _,
            bench,
        } = self;
        bench
    }

    // Sends a command of the probe that is no Transfer and no block, in one packet.
    pub(crate) fn exchange(&mut self, command: &Command<'_>) -> Result<u32, FlightEnd>
        requires free { IsFree self.old.flight }
        requires command { IsSingle (command_value command.now) }
        ensures done { StepsWhere IsTargetInRange (DoneBy (command_value command.now) result)
            (B.state self.old.bench) (B.state self.new.bench) }
        ensures least { IfOk result (λ number. least_of (command_value command.now) ≤ number) }
        ensures keeps { KeepsUncut B.reported B.state B.identity result self.old.bench self.new.bench self.old.flight self.new.flight }
    {
        self.flight.command(&mut self.bench, command)
    }

    // Makes a command that needs only one packet.
    fn command_once(&mut self, call: ProbeCall) -> Result<u32, FlightEnd>
        requires may { MaySendCommand self.old.flight call }
        ensures done { IfOk result (λ word. StepsWhere IsTargetInRange (HasMadeAction (Commands call) word)
            (B.state self.old.bench) (B.state self.new.bench)) }
        ensures packets { OnOk result (StepsWhere IsTargetInRange (SendsFew 1) (B.state self.old.bench) (B.state self.new.bench)) }
        ensures left { IfErr result (λ end. StepsWhere IsTargetInRange (MadeOrNot (Commands call) end)
            (B.state self.old.bench) (B.state self.new.bench)) }
        ensures keeps { KeepsUncut B.reported B.state B.identity result self.old.bench self.new.bench self.old.flight self.new.flight }
    {
        self.exchange(&command_of(call))
    }

    // A delay in parts of at most 65,535 microseconds.
    fn delay(&mut self, micros: u32) -> Result<u32, FlightEnd>
        requires free { IsFree self.old.flight }
        requires sound { IsSoundProbe (probe.Delay micros) }
        ensures done { IfOk result (λ word. StepsWhere IsTargetInRange (HasMadeAction (Commands (probe.Delay micros)) word)
            (B.state self.old.bench) (B.state self.new.bench)) }
        ensures packets { OnOk result (StepsWhere IsTargetInRange (SendsFew (1 + micros / 65535))
            (B.state self.old.bench) (B.state self.new.bench)) }
        ensures left { IfErr result (λ end. StepsWhere CanFly (LeftActionOff (Commands (probe.Delay micros)) end)
            (B.state self.old.bench) (B.state self.new.bench)) }
        ensures keeps { KeepsUncut B.reported B.state B.identity result self.old.bench self.new.bench self.old.flight self.new.flight }
    {
        let mut left = micros;
        while left > 0xFFFF {
            self.command_once(ProbeCall::Delay(0xFFFF))?;
            left -= 0xFFFF;
        }
        self.command_once(ProbeCall::Delay(left))
    }

    // One portion of a poll: at most 65,536 turns, in one packet.
    fn poll_portion(&mut self, config: Config, ask: PollAsk) -> Result<bool, FlightEnd>
        requires may { MaySendPoll self.old.flight ask.turns }
        ensures done { IfOk result (λ matched. StepsMatching config.idle config.retry
            (HasMadeAction (Polls ask.mask ask.value ask.turns) (matched_word matched)) (B.state self.old.bench) (B.state self.new.bench)) }
        ensures packets { OnOk result (StepsMatching config.idle config.retry (SendsFew 1)
            (B.state self.old.bench) (B.state self.new.bench)) }
        ensures left { IfErr result (λ end. StepsMatching config.idle config.retry (MadeOrNot (Polls ask.mask ask.value ask.turns) end)
            (B.state self.old.bench) (B.state self.new.bench)) }
        ensures unnamed { IfErr result IsUnnamed }
        ensures keeps { KeepsWireWhole B.reported B.state B.identity result self.old.bench self.new.bench self.old.flight self.new.flight }
    {
        self.flight.poll(&mut self.bench, config, ask)
    }

    // Reads CTRL/STAT, in a flight of its own. At a cut it names no access.
    fn read_once(&mut self) -> Result<u32, FlightEnd>
        requires free { IsFree self.old.flight }
        ensures done { IfOk result (λ value. StepsWhere CanFly (HasRead value) (B.state self.old.bench) (B.state self.new.bench)) }
        ensures packets { OnOk result (StepsWhere CanFly (SendsFew 1) (B.state self.old.bench) (B.state self.new.bench)) }
        ensures left { IfErr result (λ end. StepsWhere CanFly (ReadOrNot end) (B.state self.old.bench) (B.state self.new.bench)) }
        ensures unnamed { IfErr result IsUnnamed }
        ensures keeps { KeepsWireWhole B.reported B.state B.identity result self.old.bench self.new.bench self.old.flight self.new.flight }
    {
        self.flight.push(RegAccess {
            ap: false,
            read: true,
            addr: CTRL_STAT,
            value: 0,
        });
        match self.flight.send(&mut self.bench, &mut self.slots) {
            Ok(()) => Ok(self.slots.get(0).unwrap_or(0)),
            Err(end) => Err(name_no_access(end)),
        }
    }
}

impl<B: Bench> Flights for Wire<B> {
    ghost use Rattle.batch_packer.specs.FlightStates.{has_room, item_at};
    ghost use Rattle.access_regs.specs.declared.planner.Planner.TheVariants.{Managed};

    ghost reported = { λ w. B.reported w.bench };

    ghost state = { λ w. B.state w.bench };

    ghost identity = { λ w. B.identity w.bench };

    ghost accesses = { λ w. w.flight.accesses };

    ghost values = { λ w. w.slots.values };

    ghost ended = { λ w. w.flight.end };

    ghost limits = { λ w. w.flight.limits };

    ghost planner = { Managed };

    ghost has_room = { λ w next. has_room w.flight.limits w.flight.accesses next };

    ghost is_resumable = { λ w. w.flight.resumable };

    ghost packet = { λ w. item_at w.flight.packets w.flight.at };

    ghost reply = { λ w. item_at w.flight.replies w.flight.at };

    fn plans_alone() -> bool {
        false
    }

    fn room(&self, next: RegAccess) -> bool {
        self.flight.room(next)
    }

    fn push(&mut self, next: RegAccess) {
        self.flight.push(next);
    }

    fn send(&mut self) -> Result<(), FlightEnd> {
        self.flight.send(&mut self.bench, &mut self.slots)
    }

    fn value(&self, place: u32) -> u32 {
        self.slots.get(place).unwrap_or(0)
    }

    fn can_resume(&self) -> bool {
        self.flight.can_resume()
    }

    fn resume(&mut self) {
        self.flight.resume();
    }

    fn poll(
        &mut self,
        config: Config,
        mask: u32,
        requested: u32,
        turns: u32,
    ) -> Result<bool, FlightEnd> {
        let mut left = turns;
        while left > 0 {
            let now = left.min(0x1_0000);
            let ask = PollAsk {
                mask,
                value: requested,
                turns: now,
            };
            if self.poll_portion(config, ask)? {
                return Ok(true);
            }
            left -= now;
        }
        Ok(false)
    }

    fn poll_by_reads(
        &mut self,
        mask: u32,
        requested: u32,
        turns: u32,
    ) -> Result<Polled, FlightEnd> {
        for turn in 0..turns {
            let value = self.read_once()?;
            if value & mask == requested {
                return Ok(Polled {
                    matched: true,
                    reads: turn + 1,
                });
            }
        }
        Ok(Polled {
            matched: false,
            reads: turns,
        })
    }

    fn command(&mut self, call: ProbeCall) -> Result<u32, FlightEnd> {
        match call {
            ProbeCall::Delay(micros) => self.delay(micros),
            _ => self.command_once(call),
        }
    }

    fn sent(&self) -> &[u8] {
        self.flight.sent()
    }

    fn got(&self) -> &[u8] {
        self.flight.got()
    }
}
