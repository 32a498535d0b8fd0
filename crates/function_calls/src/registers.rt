//! Calls that access registers.
ghost use Rattle.sequence_rules.specs.Calls as c;
ghost use Rattle.function_calls.specs.Ends.{as_port};
ghost use Rattle.function_calls.specs.Frame.{IsReadyToCall, RunsCall};

use crate::asking::ask_for_result;
use crate::end::End;
use crate::held::Held;
use crate::ports::{use_debug_port, use_port};
use access_calls::Access;
use sequence_rules::{Port, ap_unit, dp_unit};
use target_calls::Value;

// `ReadAP` and `WriteAP`, once the port is known.
#[tactic(auto, unfolding(sequence_rules::specs::Calls::ap_at, sequence_rules::specs::Calls::or_halt))]
fn access_ap_at<A: Access>(
    read: bool,
    addr: u64,
    value: u64,
    port: Port,
    held: &mut Held,
    access: &mut A,
) -> Result<Value, End>
    requires ready { IsReadyToCall held.old.units (A.reported access.old) }
    ensures { RunsCall (λ m. c.ap_at m read addr value (as_port port)) A.cost A.begun A.reported A.identity held.old access.old held.new access.new result }
{
    match ap_unit(read, addr, value, port.ap, port.dp) {
        Ok(unit) => ask_for_result(read, unit, port.forgive, held, access),
        Err(cause) => Err(End::Halted(cause)),
    }
}

// `ReadAP` and `WriteAP`.
#[tactic(auto, unfolding(sequence_rules::specs::Calls::ap_register), using(crate::proofs::Leaves::goes_on))]
pub(crate) fn access_ap<A: Access>(
    read: bool,
    addr: u64,
    value: u64,
    held: &mut Held,
    access: &mut A,
) -> Result<Value, End>
    requires ready { IsReadyToCall held.old.units (A.reported access.old) }
    ensures { RunsCall (λ m. c.ap_register m read addr value) A.cost A.begun A.reported A.identity held.old access.old held.new access.new result }
{
    let port = use_port(held, access)?;
    access_ap_at(read, addr, value, port, held, access)
}

// `ReadDP` and `WriteDP`, once the debug port is known.
#[tactic(auto, unfolding(sequence_rules::specs::Calls::dp_at, sequence_rules::specs::Calls::or_halt))]
fn access_dp_at<A: Access>(
    read: bool,
    addr: u64,
    value: u64,
    dp: u64,
    held: &mut Held,
    access: &mut A,
) -> Result<Value, End>
    requires ready { IsReadyToCall held.old.units (A.reported access.old) }
    ensures { RunsCall (λ m. c.dp_at m read addr value dp) A.cost A.begun A.reported A.identity held.old access.old held.new access.new result }
{
    match dp_unit(read, addr, value, dp) {
        Ok(unit) => ask_for_result(read, unit, false, held, access),
        Err(cause) => Err(End::Halted(cause)),
    }
}

// `ReadDP` and `WriteDP`.
#[tactic(auto, unfolding(sequence_rules::specs::Calls::dp_register), using(crate::proofs::Leaves::goes_on))]
pub(crate) fn access_dp<A: Access>(
    read: bool,
    addr: u64,
    value: u64,
    held: &mut Held,
    access: &mut A,
) -> Result<Value, End>
    requires ready { IsReadyToCall held.old.units (A.reported access.old) }
    ensures { RunsCall (λ m. c.dp_register m read addr value) A.cost A.begun A.reported A.identity held.old access.old held.new access.new result }
{
    let dp = use_debug_port(held, access)?;
    access_dp_at(read, addr, value, dp, held, access)
}
