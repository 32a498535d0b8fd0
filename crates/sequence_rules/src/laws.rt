//! What follows from the definitions: each law is the contract of a function that does nothing.

ghost use Rattle.target_calls.specs.World.{World};
ghost use Rattle.sequence_rules.specs.Rows.{Divides, HalfMade, Loops, LoopsUntil, Orders, CallsB, Writes, Halts};
ghost use Rattle.sequence_rules.specs.Laws.{LateValuesChangeNothing, RunsOnlyAdd, CallsAreMade, CompleteIsNeverLost, CutsAreFronts, LateRunsOnlyAdd};
ghost use Rattle.sequence_rules.specs.Laws.{LimitsCutRuns, LinesAreOnlyWritten, WatchedIsTheMeaning};

/// A run with results that come later comes to what the meaning comes to, in each world: the same ending, variables, counts, calls
/// and lines. Where the meaning ends at a fault or at a call that is not answered, it has the same lines, and the first calls.
pub fn late_values_change_nothing()
    ensures { LateValuesChangeNothing }
{}

/// A run adds calls after those that were made, and lines after those that were written. One with results that come later does so
/// too, and adds no line once its calls stop.
pub fn runs_only_add()
    ensures direct { RunsOnlyAdd }
    ensures late { LateRunsOnlyAdd }
{}

/// What was written before a run changes nothing but what is written: neither the outcome, nor the calls and need points of the run
/// with results that come later.
pub fn lines_are_only_written()
    ensures { LinesAreOnlyWritten }
{}

/// Each unit of a run is a call, made after those before it; a run is over where its calls stop, and is Done or Halted where they
/// do not.
pub fn calls_are_made()
    ensures { CallsAreMade }
{}

/// Where at most m units are answered, a run that asks more ends at unit m + 1, and has written what the whole run writes first. Any other
/// run is the same.
pub fn limits_cut_runs()
    ensures { LimitsCutRuns }
{}

/// The cut after all units of a run is what the run leaves and wrote; what is written before a unit comes first in what the run wrote.
pub fn cuts_are_fronts()
    ensures { CutsAreFronts }
{}

/// A run that ends where something is missing which every valid set has comes to what the meaning comes to, unless it ends so.
pub fn watched_is_the_meaning()
    ensures { WatchedIsTheMeaning }
{}

/// A run of a program that lacks nothing never meets a name that is not visible, or a call that its function does not take. Nor does it
/// meet a sequence that is not in the set or too deep, or a loop without a timeout.
pub fn complete_is_never_lost()
    ensures { CompleteIsNeverLost }
{}

/// The definitions compute: runs that were worked out by hand.
pub fn worked_rows()
    ensures divides { Divides }
    ensures half_made { HalfMade }
    ensures loops { Loops }
    ensures loops_until { LoopsUntil }
    ensures orders { Orders }
    ensures calls { CallsB }
    ensures writes { Writes }
    ensures halts { (w : World) → Halts w }
{}
