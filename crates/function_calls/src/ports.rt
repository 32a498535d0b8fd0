//! The predefined variables that calls use.
ghost use Rattle.std.specs.Prelude.{◌≡◌, None, codes};
ghost use Rattle.sequence_rules.specs.Calls as c;
ghost use Rattle.function_calls.specs.Ends.{answer_by, as_port};
ghost use Rattle.function_calls.specs.Frame.{RunsUse};

use crate::end::End;
use crate::held::Held;
use crate::uses::use_value;
use access_calls::Access;
use sequence_rules::Port;

/// The number of `__dp`, which is used.
#[tactic(auto, using(crate::proofs::Leaves::global_gives))]
pub fn use_debug_port<A: Access>(held: &Held, access: &mut A) -> Result<u64, End>
    requires open { (A.reported access.old).end ≡ None }
    ensures { RunsUse (λ m. c.global m (codes "__dp")) A.cost A.begun A.reported A.identity held.now access.old access.new result }
{
    use_value(held.globals.dp(), access)
}

// The number of `__ap`, which is used.
#[tactic(auto, using(crate::proofs::Leaves::global_gives))]
fn use_access_port<A: Access>(held: &Held, access: &mut A) -> Result<u64, End>
    requires open { (A.reported access.old).end ≡ None }
    ensures { RunsUse (λ m. c.global m (codes "__ap")) A.cost A.begun A.reported A.identity held.now access.old access.new result }
{
    use_value(held.globals.ap(), access)
}

// The number of `__errorcontrol`, which is used.
#[tactic(auto, using(crate::proofs::Leaves::global_gives))]
fn use_error_control<A: Access>(held: &Held, access: &mut A) -> Result<u64, End>
    requires open { (A.reported access.old).end ≡ None }
    ensures { RunsUse (λ m. c.global m (codes "__errorcontrol")) A.cost A.begun A.reported A.identity held.now access.old access.new result }
{
    use_value(held.globals.control(), access)
}

// `__dp` is used last.
#[tactic(auto, unfolding(sequence_rules::specs::Calls::port_with), using(crate::proofs::Leaves::goes_on))]
fn use_port_with<A: Access>(ap: u64, control: u64, held: &Held, access: &mut A) -> Result<Port, End>
    requires open { (A.reported access.old).end ≡ None }
    ensures { RunsUse (λ m. c.port_with m ap control) A.cost A.begun A.reported A.identity held.now access.old access.new (answer_by as_port result) }
{
    let dp = use_debug_port(held, access)?;
    Ok(Port {
        ap,
        forgive: control % 2 == 1,
        dp,
    })
}

// `__errorcontrol` is used after `__ap`.
#[tactic(auto, unfolding(sequence_rules::specs::Calls::port_from), using(crate::proofs::Leaves::goes_on))]
fn use_port_from<A: Access>(ap: u64, held: &Held, access: &mut A) -> Result<Port, End>
    requires open { (A.reported access.old).end ≡ None }
    ensures { RunsUse (λ m. c.port_from m ap) A.cost A.begun A.reported A.identity held.now access.old access.new (answer_by as_port result) }
{
    let control = use_error_control(held, access)?;
    use_port_with(ap, control, held, access)
}

// The variables that a memory or AP call uses.
#[tactic(auto, unfolding(sequence_rules::specs::Calls::port), using(crate::proofs::Leaves::goes_on))]
pub(crate) fn use_port<A: Access>(held: &Held, access: &mut A) -> Result<Port, End>
    requires open { (A.reported access.old).end ≡ None }
    ensures { RunsUse (λ m. c.port m) A.cost A.begun A.reported A.identity held.now access.old access.new (answer_by as_port result) }
{
    let ap = use_access_port(held, access)?;
    use_port_from(ap, held, access)
}
