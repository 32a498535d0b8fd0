//! Calls that access registers.
ghost use Rattle.sequence_rules.specs.Calls as c;
ghost use Rattle.std.specs.Prelude.{false};
ghost use Rattle.sequence_meaning.specs.Frame.{RunsWithoutSink};
ghost use Rattle.sequence_rules.specs.Direct.{direct};

use crate::asking::{ask_for_result, debug_port, port_of};
use crate::end::{DirectEnd, Stopped};
use crate::held::DirectHeld;
use sequence_rules::{Port, ap_unit, dp_unit};
use target_machine::Target;

// `ReadAP` and `WriteAP`, once the port is known.
#[tactic(auto, unfolding(sequence_rules::specs::Calls::ap_at, sequence_rules::specs::Calls::or_halt))]
fn access_ap_at(
    read: bool,
    addr: u64,
    value: u64,
    port: Port,
    held: &mut DirectHeld,
    target: &mut Target,
) -> Result<u64, Stopped>
    ensures { RunsWithoutSink (c.ap_at (direct false) read addr value (record { ap = port.ap; forgive = port.forgive; dp = port.dp }))
        held.old target.old held.new target.new result }
{
    match ap_unit(read, addr, value, port.ap, port.dp) {
        Ok(unit) => ask_for_result(read, unit, port.forgive, held, target),
        Err(cause) => {
            held.end = DirectEnd::Halted(cause);
            Err(Stopped)
        }
    }
}

// `ReadAP` and `WriteAP`.
#[tactic(auto, unfolding(sequence_rules::specs::Calls::ap_register))]
pub(crate) fn access_ap(
    read: bool,
    addr: u64,
    value: u64,
    held: &mut DirectHeld,
    target: &mut Target,
) -> Result<u64, Stopped>
    ensures { RunsWithoutSink (c.ap_register (direct false) read addr value) held.old target.old held.new target.new result }
{
    access_ap_at(read, addr, value, port_of(held), held, target)
}

// `ReadDP` and `WriteDP`, once the debug port is known.
#[tactic(auto, unfolding(sequence_rules::specs::Calls::dp_at, sequence_rules::specs::Calls::or_halt))]
fn access_dp_at(
    read: bool,
    addr: u64,
    value: u64,
    dp: u64,
    held: &mut DirectHeld,
    target: &mut Target,
) -> Result<u64, Stopped>
    ensures { RunsWithoutSink (c.dp_at (direct false) read addr value dp) held.old target.old held.new target.new result }
{
    match dp_unit(read, addr, value, dp) {
        Ok(unit) => ask_for_result(read, unit, false, held, target),
        Err(cause) => {
            held.end = DirectEnd::Halted(cause);
            Err(Stopped)
        }
    }
}

// `ReadDP` and `WriteDP`.
#[tactic(auto, unfolding(sequence_rules::specs::Calls::dp_register))]
pub(crate) fn access_dp(
    read: bool,
    addr: u64,
    value: u64,
    held: &mut DirectHeld,
    target: &mut Target,
) -> Result<u64, Stopped>
    ensures { RunsWithoutSink (c.dp_register (direct false) read addr value) held.old target.old held.new target.new result }
{
    access_dp_at(read, addr, value, debug_port(held), held, target)
}
