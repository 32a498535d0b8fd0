//! What issues the entries of calls, and sends them.
ghost use Rattle.std.specs.Prelude.{◌≡◌, ◌-◌, None, Some, length};
ghost use Rattle.access_calls.specs.declared.stop.Stop.TheVariants.{OutOfMemory};
ghost use Rattle.packed_access.specs.Logs.{IsSoundState};
ghost use Rattle.packed_access.specs.Sparing.{managed_points};

use crate::log::CallLog;
use access_regs::Managed;
use bench_flights::Flights;

/// What issues the entries of calls into flights, and keeps what is known of the registers and of the calls.
#[derive(Drop)]
pub(crate) struct Sender<F: Flights> {
    pub(crate) flights: F,
    pub(crate) managed: Managed,
    pub(crate) log: CallLog,
    // It can be used while there is no end, and the flight has the entries that are not confirmed.
    ghost sound: { IsSoundState log },
    ghost no_memory: { log.end ≡ Some OutOfMemory → ⊥ },
    ghost usable: { log.end ≡ None → F.ended flights ≡ None },
    ghost in_flight: { log.end ≡ None → length (F.accesses flights) ≡ length log.entries - log.confirmed },
}

// So many need points, which an access counts unless it makes each unit alone.
pub(crate) fn count_points<F: Flights>(points: u64) -> u64
    ensures { result ≡ managed_points F.planner points }
{
    if F::plans_alone() { 0 } else { points }
}
