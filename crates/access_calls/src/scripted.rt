//! An access for tests of what runs over one: it has no bench, and its results are given.
ghost use Rattle.std.specs.Prelude.{◌≡◌, ◌+◌, ◌-◌, ◌<◌, ◌≤◌, ◌^◌, [], ℕ, None, Some, false, true, if◌then◌else◌, min, vec_len};
ghost use Rattle.access_calls.specs.declared.stop.Stop.TheVariants.{BenchFault};

use crate::{Access, Stop, mark_last};
use std::alloc::Global;
use target_calls::{Ask, Asked, Slot};
use target_machine::{Call, ProbeCall, Unit};

// The end of an access whose bench failed before anything was issued.
const FAULT: Stop = Stop::BenchFault {
    issued: 0,
    confirmed: 0,
};

/// An access for tests of what runs over an access. It answers the given results in the order of the calls, and 0 after them. It fails as
/// its bench would from the call on that has the number `fails_at`, counted from 0 over all calls but `value`. Its bench is not observable:
/// what it says of a run is what any access says.
#[derive(Drop)]
pub struct Scripted {
    /// What was asked, in order.
    pub calls: Vec<Ask>,
    results: Vec<u32>,
    made: u32,
    fails_at: u32,
    /// How many need points came.
    pub needs: u64,
    fence: usize,
    faults: u64,
    ended: bool,
}

impl Scripted {
    /// An access of which nothing was asked, with these results. No memory is taken.
    pub fn new(alloc: Global, results: Vec<u32>, fails_at: u32) -> Scripted
        ensures calls { result.calls.items ≡ [] }
        ensures results { result.results ≡ results }
        ensures made { result.made ≡ 0 }
        ensures fails_at { result.fails_at ≡ fails_at }
        ensures needs { result.needs ≡ 0 }
        ensures fence { result.fence ≡ 0 }
        ensures faults { result.faults ≡ 0 }
        ensures open { result.ended ≡ false }
    {
        Scripted {
            calls: Vec::new(alloc),
            results,
            made: 0,
            fails_at,
            needs: 0,
            fence: 0,
            faults: 0,
            ended: false,
        }
    }
}

impl Scripted {
    // Whether this call fails; calls are counted.
    fn fails(&mut self) -> bool
        ensures same { self.new ≡ record self.old { made = self.new.made } }
    {
        let fails = self.made == self.fails_at;
        self.made = self.made.saturating_add(1);
        fails
    }

    // The bench failed, which is the end.
    fn fail(&mut self) -> Stop
        ensures answer { result ≡ BenchFault 0 0 }
        ensures later { self.old.faults ≤ self.new.faults }
        ensures same { self.new ≡ record self.old { faults = min (self.old.faults + 1) (2 ^ 64 - 1); ended = true } }
    {
        self.faults = self.faults.saturating_add(1);
        self.ended = true;
        FAULT
    }

    // A need point comes.
    fn need(&mut self)
        ensures same { self.new ≡ record self.old { needs = min (self.old.needs + 1) (2 ^ 64 - 1); fence = vec_len self.old.calls } }
    {
        self.needs = self.needs.saturating_add(1);
        self.fence = self.calls.len();
    }

    // The given result of a call, and 0 after them.
    fn result(&self, index: u32) -> u64
        ensures bound { result < 2 ^ 32 }
    {
        self.results
            .get(index as usize)
            .copied()
            .map_or(0, u64::from)
    }
}

impl Access for Scripted {
    ghost use Rattle.probe_core.specs.Bench.{no_exchange};
    ghost use Rattle.access_calls.specs.Causes.{keeps_nothing};
    ghost use Rattle.access_calls.specs.Growing.{grows_empty, settles_empty};

    ghost reported = { λ s. record {
      bench = record { limits = record { packet_size = 64; packet_count = 1 }; held = 0; waiting = 0; faults = s.faults; exchanges = 0; last = no_exchange };
      state = None;
      asks = record { calls = s.calls.items; needs = s.needs; fence = s.fence };
      came = 0;
      known = vec_len s.calls;
      end = if s.ended then Some (BenchFault 0 0) else None;
      lines = 0;
      skipped = 0;
      issued = 0;
      confirmed = 0;
      sent = [];
      got = [];
    } };

    ghost identity = { λ s. 0 };

    ghost begun = { λ s m. ⊥ };

    ghost journal = { λ t asks. [] };

    ghost cost = { λ t asks ask. record { before = 0; after = 0 } };

    ghost is_sparing = { false };

    ghost grows = { grows_empty };

    ghost settles = { settles_empty };

    ghost keeps = { λ s. keeps_nothing _ _ (λ i. []) (λ i. []) };

    ghost stands = { λ s m answered is left. absurd is };

    ghost spares = { λ s m answered is left. tt };

    fn ask(&mut self, unit: Unit, forgive: bool) -> Result<Asked, Stop> {
        if self.ended {
            return Err(FAULT);
        }
        let index = self.calls.len() as u32;
        let ask = Ask {
            call: Call::Access(unit),
            forgive,
            settled: false,
        };
        if self.calls.push(ask).is_err() {
            return Err(Stop::OutOfMemory);
        }
        if self.fails() {
            return Err(self.fail());
        }
        Ok(Asked::Slot(Slot { index }))
    }

    fn command(&mut self, call: ProbeCall) -> Result<u64, Stop> {
        if self.ended {
            return Err(FAULT);
        }
        let index = self.calls.len() as u32;
        let ask = Ask {
            call: Call::Probe(call),
            forgive: false,
            settled: false,
        };
        if self.calls.push(ask).is_err() {
            return Err(Stop::OutOfMemory);
        }
        if self.fails() {
            return Err(self.fail());
        }
        Ok(self.result(index))
    }

    fn value(&mut self, slot: Slot) -> Result<u64, Stop> {
        if slot.index as usize >= self.fence {
            self.need();
        }
        Ok(self.result(slot.index))
    }

    fn flush(&mut self) -> Result<(), Stop> {
        if self.ended {
            return Err(FAULT);
        }
        if self.fails() {
            return Err(self.fail());
        }
        self.need();
        Ok(())
    }

    fn finish(&mut self) -> Result<(), Stop> {
        if self.ended {
            return Err(FAULT);
        }
        mark_last(&mut self.calls);
        if self.fails() {
            return Err(self.fail());
        }
        self.need();
        Ok(())
    }

    fn sent(&self) -> &[u8] {
        &[]
    }

    fn got(&self) -> &[u8] {
        &[]
    }

    fn skipped(&self) -> u32 {
        0
    }
}
