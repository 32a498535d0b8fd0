//! How calls end.
ghost use Rattle.std.specs.Prelude.{◌≡◌, true, false, List};
ghost use Rattle.target_calls.specs.Asks.{ForgiveNothing, is_forgiving, is_wide_call};
ghost use Rattle.target_calls.specs.World.{World, done_now, skips};
ghost use Rattle.target_calls.specs.declared.calls.Ask.{Ask};
ghost use Rattle.target_machine.specs.Plain.{Faulted, Skipped, Small};

/// Only a call that forgives is skipped, only one that does not ends at a fault, and only one over 0xFFFFFFFF is too large for
/// its access port.
pub fn ends_of_calls()
    ensures skipped { (w : World) (ask : Ask) → (done_now w ask).end ≡ Skipped → is_forgiving ask ≡ true }
    ensures faulted { (w : World) (ask : Ask) → (done_now w ask).end ≡ Faulted → is_forgiving ask ≡ false }
    ensures small { (w : World) (ask : Ask) → (done_now w ask).end ≡ Small → is_wide_call ask.call ≡ true }
    ensures none_skipped { (w : World) (calls : List Ask) → ForgiveNothing calls → skips w calls ≡ 0 }
{}
