//! Polls of CTRL/STAT.
ghost use Rattle.std.specs.Prelude.{◌≤◌};
ghost use Rattle.sequence_rules.specs.Steps as st;
ghost use Rattle.function_calls.specs.Frame.{IsReadyToCall, RunsCall};

use access_calls::Access;
use function_calls::{End, Held, ask, use_debug_port};
use target_machine::{HaltCause, Unit};

// One unit, whose result is dropped.
#[tactic(auto, unfolding(sequence_rules::specs::Steps::poll_result_at, sequence_rules::specs::Steps::dropped_value), using(crate::proofs::Exits::goes_on))]
fn run_poll_at<A: Access>(
    mask: u32,
    requested: u32,
    count: u32,
    dp: u64,
    held: &mut Held,
    access: &mut A,
) -> Result<(), End>
    requires least { 1 ≤ count }
    requires most { count ≤ 60000000 }
    requires ready { IsReadyToCall held.old.units (A.reported access.old) }
    ensures { RunsCall (λ m. st.poll_result_at m (mask, requested) count dp) A.cost A.begun A.reported A.identity held.old access.old held.new access.new result }
{
    if dp != 0 {
        return Err(End::Halted(HaltCause::Unsupported));
    }
    let unit = Unit::Poll {
        mask,
        value: requested,
        turns: count,
    };
    ask(unit, false, held, access)?;
    Ok(())
}

// A poll is counted as a step, and uses `__dp`.
#[tactic(auto, unfolding(sequence_rules::specs::Steps::poll_result), using(crate::proofs::Exits::goes_on))]
pub(crate) fn run_poll<A: Access>(
    mask: u32,
    requested: u32,
    count: u32,
    held: &mut Held,
    access: &mut A,
) -> Result<(), End>
    requires least { 1 ≤ count }
    requires most { count ≤ 60000000 }
    requires ready { IsReadyToCall held.old.units (A.reported access.old) }
    ensures { RunsCall (λ m. st.poll_result m (mask, requested) count) A.cost A.begun A.reported A.identity held.old access.old held.new access.new result }
{
    match held.count_step() {
        Ok(()) => {}
        Err(cause) => return Err(End::Halted(cause)),
    }
    let dp = use_debug_port(held, access)?;
    run_poll_at(mask, requested, count, dp, held, access)
}
