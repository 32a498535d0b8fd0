//! Units and commands of the probe, asked one after the other.
ghost use Rattle.target_machine.specs.Sound.{IsSound, IsSoundProbe};
ghost use Rattle.sequence_rules.specs.Calls as c;
ghost use Rattle.sequence_rules.specs.Late.{late};
ghost use Rattle.function_calls.specs.Frame.{IsReadyToCall, RunsCall};

use crate::end::End;
use crate::held::Held;
use access_calls::Access;
use sequence_rules::MOST_UNITS;
use target_calls::{Asked, Value};
use target_machine::{HaltCause, ProbeCall, Unit};

/// Asks for an access as a unit, which may forgive a fault: the place of its result. Halts with `AccessLimit` where it would be
/// unit number 1,000,001, and with `AddressTooLarge` where the address is too large for its access port.
#[tactic(auto, unfolding(sequence_rules::specs::Calls::ask, sequence_rules::specs::Calls::counted_answer, sequence_rules::specs::Late::late), using(crate::proofs::Leaves::leaves))]
pub fn ask<A: Access>(
    unit: Unit,
    forgive: bool,
    held: &mut Held,
    access: &mut A,
) -> Result<Value, End>
    requires sound { IsSound unit }
    requires ready { IsReadyToCall held.old.units (A.reported access.old) }
    ensures { RunsCall (λ m. c.ask m unit forgive) A.cost A.begun A.reported A.identity held.old access.old held.new access.new result }
{
    if held.units >= MOST_UNITS {
        return Err(End::Halted(HaltCause::AccessLimit));
    }
    match access.ask(unit, forgive) {
        Ok(Asked::Slot(slot)) => {
            held.units += 1;
            Ok(Value::Pending(slot))
        }
        Ok(Asked::Small) => {
            held.units += 1;
            Err(End::Halted(HaltCause::AddressTooLarge))
        }
        Err(stop) => Err(End::from(stop)),
    }
}

// A read has its value, and a write 0.
#[tactic(auto, unfolding(sequence_rules::specs::Calls::if_read, sequence_rules::specs::Calls::zero_of), using(crate::proofs::Leaves::goes_on))]
pub(crate) fn ask_for_result<A: Access>(
    read: bool,
    unit: Unit,
    forgive: bool,
    held: &mut Held,
    access: &mut A,
) -> Result<Value, End>
    requires sound { IsSound unit }
    requires ready { IsReadyToCall held.old.units (A.reported access.old) }
    ensures { RunsCall (λ m s. c.if_read m read (c.ask m unit forgive s)) A.cost A.begun A.reported A.identity held.old access.old held.new access.new result }
{
    let value = ask(unit, forgive, held, access)?;
    Ok(if read { value } else { Value::Number(0) })
}

// A command of the probe as a unit, made at once, unless it would be number 1,000,001.
#[tactic(auto, unfolding(sequence_rules::specs::Calls::command, sequence_rules::specs::Calls::counted_number, sequence_rules::specs::Late::late), using(crate::proofs::Leaves::leaves))]
pub(crate) fn command<A: Access>(
    call: ProbeCall,
    held: &mut Held,
    access: &mut A,
) -> Result<Value, End>
    requires sound { IsSoundProbe call }
    requires ready { IsReadyToCall held.old.units (A.reported access.old) }
    ensures { RunsCall (λ m. c.command m call) A.cost A.begun A.reported A.identity held.old access.old held.new access.new result }
{
    if held.units >= MOST_UNITS {
        return Err(End::Halted(HaltCause::AccessLimit));
    }
    match access.command(call) {
        Ok(number) => {
            held.units += 1;
            Ok(Value::Number(number))
        }
        Err(stop) => Err(End::from(stop)),
    }
}

// A command whose result is dropped.
#[tactic(auto, unfolding(sequence_rules::specs::Calls::zero_of), using(crate::proofs::Leaves::goes_on))]
pub(crate) fn command_without_result<A: Access>(
    call: ProbeCall,
    held: &mut Held,
    access: &mut A,
) -> Result<Value, End>
    requires sound { IsSoundProbe call }
    requires ready { IsReadyToCall held.old.units (A.reported access.old) }
    ensures { RunsCall (λ m s. c.zero_of m (c.command m call s)) A.cost A.begun A.reported A.identity held.old access.old held.new access.new result }
{
    command(call, held, access)?;
    Ok(Value::Number(0))
}
