//! An access that is begun over a bench, and hands it back.

ghost use Rattle.std.specs.Prelude.{◌≡◌, ◌≤◌, IfOk, IfErr, take};
ghost use Rattle.probe_core.specs.Bench.{StepsTo, seen_bench};
ghost use Rattle.access_calls.specs.Opening.{BenchIsIdle, GoesOnTo, HasOpened, IsNew, IsNotBegun, MayBegin, opened_bench};

use crate::{Access, NotBegun};
use probe_core::{Bench, Config, Limits};
use std::alloc::Global;

/// An access over a bench that it owns, which may be a lent one.
pub trait OverBench<B: Bench>: Access {
    /// Opens the probe, and begins with nothing asked. The bench has these limits, it holds no packet, and no reply waits.
    ///
    /// Refused where the bench failed, where a reply is bad, and where memory is refused; the bench is handed back. An observable bench
    /// over which an access may begin never gives a bad reply.
    fn begin(alloc: Global, bench: B, config: Config, limits: Limits) -> Result<Self, NotBegun<B>>
        requires idle { BenchIsIdle (B.reported bench) }
        requires limits { limits ≡ (B.reported bench).limits }
        // Nothing was asked, and there is no end.
        ensures new { IfOk result (λ a. IsNew (Self.Access.reported a)) }
        // Over an observable bench over which an access may begin it began there, with these settings, which three exchanges made.
        ensures begun { IfOk result (λ a. StepsTo (λ m n. MayBegin m → Self.Access.begun a (opened_bench config m)) (B.state bench) (Self.Access.reported a).state) }
        ensures opened { IfOk result (λ a. StepsTo (λ m n. MayBegin m → HasOpened config m n) (B.state bench) (Self.Access.reported a).state) }
        // What becomes of the bench.
        ensures goes { IfOk result (λ a. GoesOnTo (seen_bench B.reported B.state bench) (Self.Access.reported a).bench (Self.Access.reported a).state) }
        ensures faults { IfOk result (λ a. (Self.Access.reported a).bench.faults ≡ (B.reported bench).faults) }
        ensures identity { IfOk result (λ a. Self.Access.identity a ≡ B.identity bench) }
        // Why it did not begin.
        ensures refused { IfErr result (λ e. IsNotBegun config (seen_bench B.reported B.state bench) (seen_bench B.reported B.state e.bench) e.stop
            (take e.sent_length e.sent) (take e.got_length e.got)) }
        ensures lengths { IfErr result (λ e. (e.sent_length ≤ 1024) × (e.got_length ≤ 1024)) }
        ensures refused_identity { IfErr result (λ e. B.identity e.bench ≡ B.identity bench) };

    /// The bench, as the calls left it.
    fn into_bench(self) -> B
        ensures reported { B.reported result ≡ (Self.Access.reported self).bench }
        ensures state { B.state result ≡ (Self.Access.reported self).state }
        ensures identity { B.identity result ≡ Self.Access.identity self };
}
