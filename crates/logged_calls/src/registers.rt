//! Calls that access registers.
ghost use Rattle.std.specs.Prelude.{false};
ghost use Rattle.sequence_rules.specs.Calls as c;
ghost use Rattle.sequence_rules.specs.Direct.{direct};
ghost use Rattle.logged_calls.specs.Held.{MakesUnits, port_view};

use crate::asking::{ask_for_result, debug_port, port_of};
use crate::held::{Held, LoggedEnd, Stopped};
use sequence_rules::{Port, ap_unit, dp_unit};
use target_machine::Target;

// `ReadAP` and `WriteAP`, once the port is known.
#[tactic(auto, unfolding(sequence_rules::specs::Calls::ap_at, sequence_rules::specs::Calls::or_halt), using(crate::proofs::NotedLemmas::noted_none))]
fn access_ap_at(
    read: bool,
    addr: u64,
    value: u64,
    port: Port,
    held: &mut Held,
    target: &mut Target,
) -> Result<u64, Stopped>
    ensures { MakesUnits held.old target.old held.new target.new result (c.ap_at (direct false) read addr value (port_view port)) }
{
    match ap_unit(read, addr, value, port.ap, port.dp) {
        Ok(unit) => ask_for_result(read, unit, port.forgive, held, target),
        Err(cause) => {
            held.end = LoggedEnd::Halted(cause);
            Err(Stopped)
        }
    }
}

// `ReadAP` and `WriteAP`.
#[tactic(auto, unfolding(sequence_rules::specs::Calls::ap_register))]
pub(crate) fn access_ap(
    read: bool,
    addr: u64,
    value: u64,
    held: &mut Held,
    target: &mut Target,
) -> Result<u64, Stopped>
    ensures { MakesUnits held.old target.old held.new target.new result (c.ap_register (direct false) read addr value) }
{
    access_ap_at(read, addr, value, port_of(held), held, target)
}

// `ReadDP` and `WriteDP`, once the debug port is known.
#[tactic(auto, unfolding(sequence_rules::specs::Calls::dp_at, sequence_rules::specs::Calls::or_halt), using(crate::proofs::NotedLemmas::noted_none))]
fn access_dp_at(
    read: bool,
    addr: u64,
    value: u64,
    dp: u64,
    held: &mut Held,
    target: &mut Target,
) -> Result<u64, Stopped>
    ensures { MakesUnits held.old target.old held.new target.new result (c.dp_at (direct false) read addr value dp) }
{
    match dp_unit(read, addr, value, dp) {
        Ok(unit) => ask_for_result(read, unit, false, held, target),
        Err(cause) => {
            held.end = LoggedEnd::Halted(cause);
            Err(Stopped)
        }
    }
}

// `ReadDP` and `WriteDP`.
#[tactic(auto, unfolding(sequence_rules::specs::Calls::dp_register))]
pub(crate) fn access_dp(
    read: bool,
    addr: u64,
    value: u64,
    held: &mut Held,
    target: &mut Target,
) -> Result<u64, Stopped>
    ensures { MakesUnits held.old target.old held.new target.new result (c.dp_register (direct false) read addr value) }
{
    access_dp_at(read, addr, value, debug_port(held), held, target)
}
