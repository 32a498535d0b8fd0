//! Two traces side by side.
ghost use Rattle.std.specs.Prelude.{◌≡◌, IfOk, OnOk};
ghost use Rattle.trace_compare.specs.Faults.{against_end, trace_end, ReadsTwo};
ghost use Rattle.trace_compare.specs.Pairs.{first_two, GivesTwo, TakesBoth};
ghost use Rattle.trace_compare.specs.Comparison.{same_exchange_number, are_both_absent};

use crate::compare::CompareEnd;
use crate::exchange::Exchange;
use crate::trace::Trace;
use dap_base::{OutOfMemory, Source};
use std::alloc::Global;
use trace_events::ReadEnd;

/// The trace, and the one that it is compared with.
#[derive(Drop)]
pub struct Traces {
    pub trace: Trace,
    pub against: Trace,
}

/// The next exchanges of both, each where one comes.
#[derive(Drop)]
pub struct Two {
    pub trace: Option<Exchange>,
    pub against: Option<Exchange>,
}

impl Two {
    /// The number of the exchanges, where both are there and the same.
    pub fn same_number(&self) -> Option<u64>
        ensures { result ≡ same_exchange_number self.now.trace self.now.against }
    {
        match (&self.trace, &self.against) {
            (Some(first), Some(second)) if first.is_same(second) => Some(first.number),
            _ => None,
        }
    }

    /// Whether neither is there.
    pub fn is_end(&self) -> bool
        ensures { result ≡ are_both_absent self.now.trace self.now.against }
    {
        self.trace.is_none() && self.against.is_none()
    }
}

// Why the trace is not read on.
fn end_of_trace(end: ReadEnd) -> CompareEnd
    ensures { result ≡ trace_end end }
{
    match end {
        ReadEnd::ReadFault => CompareEnd::ReadFault,
        ReadEnd::OutOfMemory => CompareEnd::OutOfMemory,
    }
}

// Why the trace that it is compared with is not read on.
fn end_of_against(end: ReadEnd) -> CompareEnd
    ensures { result ≡ against_end end }
{
    match end {
        ReadEnd::ReadFault => CompareEnd::AgainstFault,
        ReadEnd::OutOfMemory => CompareEnd::OutOfMemory,
    }
}

impl Traces {
    /// Before the first exchanges. `OutOfMemory` where memory is refused.
    pub fn new(alloc: Global) -> Result<Traces, OutOfMemory>
        ensures { IfOk result (λ traces. traces ≡ first_two) }
    {
        Ok(Traces {
            trace: Trace::new(alloc)?,
            against: Trace::new(alloc)?,
        })
    }

    /// The next exchanges, which these sources give.
    ///
    /// `ReadFault` where the source of the trace failed, `AgainstFault` where the other failed, and `OutOfMemory` where
    /// memory is refused.
    pub fn next<S: Source, A: Source>(
        &mut self,
        alloc: Global,
        source: &mut S,
        against: &mut A,
    ) -> Result<Two, CompareEnd>
        ensures next { IfOk result (GivesTwo self.old self.new (S.left source.old) (S.left source.new) (A.left against.old) (A.left against.new)) }
        ensures faults { ReadsTwo result (S.faults source.old) (S.faults source.new) (A.faults against.old) (A.faults against.new) }
    {
        let first = match self.trace.next(alloc, source) {
            Ok(found) => found,
            Err(end) => return Err(end_of_trace(end)),
        };
        match self.against.next(alloc, against) {
            Ok(second) => Ok(Two {
                trace: first,
                against: second,
            }),
            Err(end) => {
                drop(first);
                Err(end_of_against(end))
            }
        }
    }

    /// Takes all exchanges that come. The errors are those of `next`.
    pub fn take_all<S: Source, A: Source>(
        &mut self,
        alloc: Global,
        source: &mut S,
        against: &mut A,
    ) -> Result<(), CompareEnd>
        ensures taken { OnOk result (TakesBoth self.old self.new (S.left source.old) (A.left against.old)) }
        ensures faults { ReadsTwo result (S.faults source.old) (S.faults source.new) (A.faults against.old) (A.faults against.new) }
    {
        match self.trace.take_all(alloc, source) {
            Ok(()) => {}
            Err(end) => return Err(end_of_trace(end)),
        }
        match self.against.take_all(alloc, against) {
            Ok(()) => Ok(()),
            Err(end) => Err(end_of_against(end)),
        }
    }
}
