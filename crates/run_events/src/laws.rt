//! What follows from the definitions: each law is the contract of a function that does nothing.

ghost use Rattle.run_events.specs.Laws.{EventsAreTheRun, ShownAreSeen};
ghost use Rattle.run_events.specs.Rows.{CountsToThree, Enters, Waits};

/// The units that are seen of a run are its calls, numbered from 1, each with its end after those before it. The lines that are
/// seen are what it writes.
pub fn events_are_the_run()
    ensures { EventsAreTheRun }
{}

/// Where only some turns of loops are shown, each event that is shown is one that is seen, and they come in the same order.
pub fn shown_are_seen()
    ensures { ShownAreSeen }
{}

/// The definitions compute: what is seen of runs, worked out by hand.
pub fn worked_rows()
    ensures counts { CountsToThree }
    ensures waits { Waits }
    ensures enters { Enters }
{}
