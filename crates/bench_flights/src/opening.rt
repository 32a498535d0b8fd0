//! How flights begin over a bench.
ghost use Rattle.std.specs.Prelude.{◌≡◌, ◌≤◌, [], min, length, take, None, OnOk, IfErr, IfOk};
ghost use Rattle.access_calls.specs.declared.stop.Stop.TheVariants as Stop;
ghost use Rattle.probe_core.specs.Ranges.{AreLimits};
ghost use Rattle.batch_packer.specs.Exchanges.{IsOpen, StepsWhere};
ghost use Rattle.batch_packer.specs.FlightStates.{item_at};
ghost use Rattle.batch_packer.specs.Flying.{IsWithin};
ghost use Rattle.bench_flights.specs.Flown.{BenchGoesOn, IsTargetInRange};
ghost use Rattle.access_calls.specs.Opening.{HasOpened, HasTried, MayBegin};
ghost use Rattle.bench_flights.specs.Opening.{GivesLimits, IsOpeningRefusal, IsStopFor, LeftOpen};
ghost use Rattle.bench_flights.specs.Wires.{IsFree, IsNoCut, KeepsWire};

use crate::flights::Flights;
use crate::wire::Wire;
use access_calls::{NotBegun, Stop};
use batch_packer::FlightEnd;
use dap_messages::Command;
use probe_core::{Bench, Config, Limits};
use std::alloc::Global;

/// Flights over a bench that they own.
pub trait FlightsOver<B: Bench>: Flights {
    /// Flights over a bench with these limits, which holds no packet, and in which no reply waits. The probe is opened with three
    /// exchanges. The packet size and the packet count that the probe answers limit the packets, where these are smaller. The third sets
    /// `config`, with match retry 0.
    ///
    /// At an error the bench is handed back as its calls left it, with the reason:
    ///
    /// - `OutOfMemory`: memory was refused, before anything was sent.
    /// - `BenchFault`, with 0 and 0: a call of the bench failed.
    /// - `ReplyBad`: a reply is none that its packet may get. The packet and the reply are handed back.
    fn begin(alloc: Global, bench: B, config: Config, limits: Limits) -> Result<Self, NotBegun<B>>
        requires limits { limits ≡ (B.reported bench).limits }
        requires open { IsOpen (B.reported bench) }
        // Where the bench is observable, only the settings have changed, and three starting packets were received.
        ensures on { IfOk result (λ f. StepsWhere IsTargetInRange (HasOpened config) (B.state bench) (Self.Flights.state f)) }
        // Nothing was pushed yet, and there is no end.
        ensures empty { IfOk result (λ f. Self.Flights.accesses f ≡ []) }
        ensures usable { IfOk result (λ f. Self.Flights.ended f ≡ None) }
        // The packets are within the limits; an observable bench answers just these.
        ensures fits { IfOk result (λ f. AreLimits (Self.Flights.limits f)) }
        ensures within { IfOk result (λ f. IsWithin (Self.Flights.limits f) limits) }
        ensures same { IfOk result (λ f. StepsWhere IsTargetInRange (GivesLimits limits (Self.Flights.limits f))
            (B.state bench) (Self.Flights.state f)) }
        ensures faults { IfOk result (λ f. (Self.Flights.reported f).faults ≡ (B.reported bench).faults) }
        ensures goes { IfOk result (λ f. BenchGoesOn (B.reported bench) (Self.Flights.reported f) (B.state bench) (Self.Flights.state f)) }
        ensures identity { IfOk result (λ f. Self.Flights.identity f ≡ B.identity bench) }
        // Why they did not begin.
        ensures refused { IfErr result (λ n. IsOpeningRefusal n.stop (B.reported bench) (B.reported n.bench)
            (take n.sent_length n.sent) (take n.got_length n.got)) }
        ensures lengths { IfErr result (λ n. (n.sent_length ≤ 1024) × (n.got_length ≤ 1024)) }
        // Where the bench is observable no reply is bad, and the settings were made or not.
        ensures left { IfErr result (λ n. StepsWhere MayBegin (λ m o. (n.stop ≡ Stop.ReplyBad → ⊥) × HasTried config m o)
            (B.state bench) (B.state n.bench)) }
        ensures back_goes { IfErr result (λ n. BenchGoesOn (B.reported bench) (B.reported n.bench) (B.state bench) (B.state n.bench)) }
        ensures back_identity { IfErr result (λ n. B.identity n.bench ≡ B.identity bench) };

    /// The bench, as the calls left it.
    fn into_bench(self) -> B
        ensures reported { B.reported result ≡ Self.Flights.reported self }
        ensures state { B.state result ≡ Self.Flights.state self }
        ensures identity { B.identity result ≡ Self.Flights.identity self };
}

// What DAP_Info is asked for.
const PACKET_SIZE: u8 = 0xFF;

const PACKET_COUNT: u8 = 0xFE;

// These limits, and no more than the probe answers.
fn reduce_limits(limits: Limits, size: u32, count: u32) -> Limits
    requires limits { AreLimits limits }
    requires size { 64 ≤ size }
    requires count { 1 ≤ count }
    ensures limits { AreLimits result }
    ensures size { result.packet_size ≡ min size limits.packet_size }
    ensures count { result.packet_count ≡ min count limits.packet_count }
{
    Limits {
        packet_size: size.min(limits.packet_size as u32) as u16,
        packet_count: count.min(limits.packet_count as u32) as u8,
    }
}

// Puts bytes into the front of an array, and answers how many they are.
fn put(bytes: &[u8], out: &mut [u8]) -> u16
    requires few { length bytes.now ≤ 1024 }
    requires room { length out.old ≡ 1024 }
    ensures length { result ≡ length bytes.now }
    ensures front { take result out.new ≡ bytes.now }
{
    out[..bytes.len()].copy_from_slice(bytes);
    bytes.len() as u16
}

/// Memory was refused before anything was sent.
pub fn refuse_begin<B: Bench>(bench: B) -> NotBegun<B>
    ensures bench { result.bench ≡ bench }
    ensures stop { result.stop ≡ Stop.OutOfMemory }
    ensures sent { take result.sent_length result.sent ≡ [] }
    ensures got { take result.got_length result.got ≡ [] }
    ensures lengths { (result.sent_length ≤ 1024) × (result.got_length ≤ 1024) }
{
    NotBegun {
        bench,
        stop: Stop::OutOfMemory,
        sent: [0; 1024],
        sent_length: 0,
        got: [0; 1024],
        got_length: 0,
    }
}

// One of the opening exchanges ended so.
fn end_begin<B: Bench>(flights: Wire<B>, end: FlightEnd) -> NotBegun<B>
    requires { IsNoCut end }
    ensures bench { result.bench ≡ flights.bench }
    ensures stop { IsStopFor end result.stop
        (item_at flights.flight.packets flights.flight.at) (item_at flights.flight.replies flights.flight.at)
        (take result.sent_length result.sent) (take result.got_length result.got) }
    ensures lengths { (result.sent_length ≤ 1024) × (result.got_length ≤ 1024) }
{
    let mut sent = [0u8; 1024];
    let mut got = [0u8; 1024];
    match end {
        FlightEnd::BenchFault => NotBegun {
            bench: flights.give_back(),
            stop: Stop::BenchFault {
                issued: 0,
                confirmed: 0,
            },
            sent,
            sent_length: 0,
            got,
            got_length: 0,
        },
        FlightEnd::ReplyBad | FlightEnd::Cut(_) => {
            let sent_length = put(flights.sent(), &mut sent);
            let got_length = put(flights.got(), &mut got);
            NotBegun {
                bench: flights.give_back(),
                stop: Stop::ReplyBad,
                sent,
                sent_length,
                got,
                got_length,
            }
        }
    }
}

impl<B: Bench> Wire<B> {
    // The three exchanges that begin an access. Afterwards its packets are held to what the probe answers.
    fn open(&mut self, config: Config, limits: Limits) -> Result<(), FlightEnd>
        requires free { IsFree self.old.flight }
        requires limits { AreLimits limits }
        requires given { self.old.flight.limits ≡ limits }
        ensures on { OnOk result (StepsWhere IsTargetInRange (HasOpened config) (B.state self.old.bench) (B.state self.new.bench)) }
        ensures left { IfErr result (λ end. StepsWhere IsTargetInRange (LeftOpen config end)
            (B.state self.old.bench) (B.state self.new.bench)) }
        ensures uncut { IfErr result IsNoCut }
        ensures within { OnOk result (IsWithin self.new.flight.limits limits) }
        ensures same { OnOk result (StepsWhere IsTargetInRange (GivesLimits limits self.new.flight.limits)
            (B.state self.old.bench) (B.state self.new.bench)) }
        ensures keeps { KeepsWire B.reported B.state B.identity result self.old.bench self.new.bench self.new.flight }
    {
        let Config { idle, retry } = config;
        let size = self.exchange(&Command::Info(PACKET_SIZE))?;
        let count = self.exchange(&Command::Info(PACKET_COUNT))?;
        let settings = Command::Configure {
            idle,
            retry,
            matches: 0,
        };
        self.exchange(&settings)?;
        self.flight.limit_to(reduce_limits(limits, size, count));
        Ok(())
    }
}

impl<B: Bench> FlightsOver<B> for Wire<B> {
    fn begin(
        alloc: Global,
        bench: B,
        config: Config,
        limits: Limits,
    ) -> Result<Wire<B>, NotBegun<B>> {
        let mut flights = match Wire::new(alloc, bench, limits) {
            Err(bench) => return Err(refuse_begin(bench)),
            Ok(flights) => flights,
        };
        match flights.open(config, limits) {
            Err(end) => Err(end_begin(flights, end)),
            Ok(()) => Ok(flights),
        }
    }

    fn into_bench(self) -> B {
        self.give_back()
    }
}
