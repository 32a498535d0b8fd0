//! How an access begins over a bench.
ghost use Rattle.std.specs.Prelude.{◌≡◌, ◌≤◌, take, IfErr, IfOk};
ghost use Rattle.access_calls.specs.declared.stop.Stop.TheVariants as Stop;
ghost use Rattle.probe_core.specs.Bench.{StepsTo};
ghost use Rattle.batch_packer.specs.Exchanges.{IsOpen};
ghost use Rattle.batch_packer.specs.Flying.{IsWithin};
ghost use Rattle.bench_flights.specs.Flown.{BenchGoesOn};
ghost use Rattle.access_calls.specs.Opening.{HasOpened, HasTried, MayBegin, opened_bench};
ghost use Rattle.bench_flights.specs.Opening.{IsOpeningRefusal};
ghost use Rattle.packed_access.specs.Logs.{nothing_logged};
ghost use Rattle.packed_access.specs.Sparing.{HasBegunSet};

use crate::access::PackedAccess;
use crate::log::CallLog;
use crate::sender::Sender;
use access_calls::NotBegun;
use access_regs::Managed;
use bench_flights::{FlightsOver, refuse_begin};
use probe_core::{Bench, Config, Limits};
use std::alloc::Global;

// An access over a bench with these limits, which holds no packet, and in which no reply waits. The probe is opened as
// `FlightsOver::begin` says; at an error the bench is handed back with the reason.
pub(crate) fn begin_over<B: Bench, F: FlightsOver<B>>(
    alloc: Global,
    bench: B,
    config: Config,
    limits: Limits,
) -> Result<PackedAccess<F>, NotBegun<B>>
    requires limits { limits ≡ (B.reported bench).limits }
    requires open { IsOpen (B.reported bench) }
    // Where the bench is observable, only the settings have changed, and three starting packets were received.
    ensures on { IfOk result (λ a. StepsTo (λ m o. MayBegin m → HasOpened config m o) (B.state bench) (F.Flights.state a.sender.flights)) }
    // The access began there, before these exchanges, with their settings.
    ensures begun { IfOk result (λ a. StepsTo (λ m o. MayBegin m → HasBegunSet a.config.idle a.config.retry F.Flights.planner
        (F.Flights.limits a.sender.flights) (F.Flights.reported a.sender.flights) (F.Flights.state a.sender.flights) a.sender.log
        (F.Flights.packet a.sender.flights) (F.Flights.reply a.sender.flights)
        a.sender.managed (F.Flights.accesses a.sender.flights) (opened_bench config m)) (B.state bench) (F.Flights.state a.sender.flights)) }
    // Nothing is asked yet, and there is no end.
    ensures asked { IfOk result (λ a. a.sender.log ≡ nothing_logged) }
    // Its packets are within the limits; an observable bench answers just these.
    ensures within { IfOk result (λ a. IsWithin (F.Flights.limits a.sender.flights) limits) }
    ensures same { IfOk result (λ a. StepsTo (λ m o. MayBegin m → F.Flights.limits a.sender.flights ≡ limits) (B.state bench) (F.Flights.state a.sender.flights)) }
    ensures faults { IfOk result (λ a. (F.Flights.reported a.sender.flights).faults ≡ (B.reported bench).faults) }
    ensures goes { IfOk result (λ a. BenchGoesOn (B.reported bench) (F.Flights.reported a.sender.flights) (B.state bench) (F.Flights.state a.sender.flights)) }
    ensures identity { IfOk result (λ a. F.Flights.identity a.sender.flights ≡ B.identity bench) }
    // Why it did not begin.
    ensures refused { IfErr result (λ n. IsOpeningRefusal n.stop (B.reported bench) (B.reported n.bench) (take n.sent_length n.sent) (take n.got_length n.got)) }
    ensures lengths { IfErr result (λ n. (n.sent_length ≤ 1024) × (n.got_length ≤ 1024)) }
    // Where the bench is observable no reply is bad, and the settings were made or not.
    ensures left { IfErr result (λ n. StepsTo (λ m o. MayBegin m → (n.stop ≡ Stop.ReplyBad → ⊥) × HasTried config m o) (B.state bench) (B.state n.bench)) }
    ensures back_goes { IfErr result (λ n. BenchGoesOn (B.reported bench) (B.reported n.bench) (B.state bench) (B.state n.bench)) }
    ensures back_identity { IfErr result (λ n. B.identity n.bench ≡ B.identity bench) }
{
    let Ok(managed) = Managed::new(alloc) else {
        return Err(refuse_begin(bench));
    };
    match F::begin(alloc, bench, config, limits) {
        Err(refusal) => Err(refusal),
        Ok(flights) => Ok(PackedAccess {
            sender: Sender {
                flights,
                managed,
                log: CallLog::new(alloc),
            },
            config,
        }),
    }
}
