//! The access.
ghost use Rattle.std.specs.Prelude.{◌≡◌, None, length};
ghost use Rattle.packed_access.specs.Settling.{CanSettle};

use crate::sender::Sender;
use bench_flights::{Alone, Flights, Wire};
use probe_core::Config;

/// An access that collects register accesses in flights.
#[derive(Drop)]
pub struct PackedAccess<F: Flights> {
    pub(crate) sender: Sender<F>,
    // what the probe is set to, which polls set again
    pub(crate) config: Config,
    // All calls were issued whole.
    ghost whole: { sender.log.end ≡ None → sender.log.whole ≡ length sender.log.calls },
    // There is room for a settling after them.
    ghost settles: { sender.log.end ≡ None → CanSettle sender.log sender.managed },
}

impl<F: Flights> PackedAccess<F> {
    /// How many calls were asked, at most 10,000,000.
    pub fn count(&self) -> u32
        ensures { result ≡ length self.now.sender.log.calls }
    {
        self.sender.log.count()
    }
}

/// The access over a bench that packs.
pub type Packed<B> = PackedAccess<Wire<B>>;

/// The access over a bench that sends each register access by itself, and makes each memory and AP unit alone.
pub type Single<B> = PackedAccess<Alone<B>>;
