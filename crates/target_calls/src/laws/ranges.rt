//! Numbers stay in range.
ghost use Rattle.std.specs.Prelude.{List};
ghost use Rattle.std.specs.List.{AllByRecursion};
ghost use Rattle.target_calls.specs.Asks.{AreAskable, IsAskable};
ghost use Rattle.target_calls.specs.World.{World, done_now, end_result, next_world, results, world_after};
ghost use Rattle.target_calls.specs.declared.calls.Ask.{Ask};
ghost use Rattle.target_machine.specs.InRange.{IsActionInRange, IsInRange, IsWord};

/// From a target that is in range, calls that may be asked write and give numbers of 32 bits, and leave the target in range.
pub fn calls_stay_in_range()
    ensures actions { (w : World) (ask : Ask) → IsInRange w.target → IsAskable ask → AllByRecursion IsActionInRange (done_now w ask).actions }
    ensures result { (w : World) (ask : Ask) → IsInRange w.target → IsAskable ask → IsWord (end_result (done_now w ask).end) }
    ensures next { (w : World) (ask : Ask) → IsInRange w.target → IsAskable ask → IsInRange (next_world w ask).target }
    ensures results { (w : World) (calls : List Ask) → IsInRange w.target → AreAskable calls → AllByRecursion IsWord (results w calls) }
    ensures after { (w : World) (calls : List Ask) → IsInRange w.target → AreAskable calls → IsInRange (world_after w calls).target }
{}
