//! What contracts see of a sender.
ghost use Rattle.packed_access.specs.Views.{SenderView};

use crate::sender::Sender;
use bench_flights::Flights;

/// What contracts see of a value: one view of it.
pub(crate) trait Viewed {
    /// The view.
    ghost view: { Self → SenderView };
}

impl<F: Flights> Viewed for Sender<F> {
    ghost view = { λ s. record {
      planner = F.planner;
      bench = F.reported s.flights;
      state = F.state s.flights;
      identity = F.identity s.flights;
      limits = F.limits s.flights;
      accesses = F.accesses s.flights;
      admits = F.has_room s.flights;
      sent = F.packet s.flights;
      got = F.reply s.flights;
      managed = s.managed;
      log = s.log;
    } };
}
