//! What follows from the definitions: each law is the contract of a function that does nothing.
ghost use Rattle.run_coverage.specs.Laws.{OthersDoNotCount, ShownAreCovered};

use run_events::laws::shown_are_seen;

/// An event at which nothing happens that counts changes no coverage.
pub fn others_do_not_count()
    ensures { OthersDoNotCount }
{}

/// What the shown events of a run cover, whichever turns are shown, all its events cover.
pub fn shown_are_covered()
    ensures { ShownAreCovered }
{
    shown_are_seen();
}
