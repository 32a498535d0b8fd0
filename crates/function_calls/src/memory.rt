//! Calls that access memory.
ghost use Rattle.std.specs.Prelude.{◌≡◌, ◌⊎◌, ◌+◌, ◌*◌, ◌%◌, ◌^◌, None};
ghost use Rattle.sequence_rules.specs.Calls as c;
ghost use Rattle.function_calls.specs.Ends.{as_port};
ghost use Rattle.function_calls.specs.Frame.{IsReadyToCall, RunsCall, RunsUse};

use crate::asking::{ask, ask_for_result};
use crate::end::End;
use crate::held::Held;
use crate::ports::use_port;
use crate::uses::{confirm, use_both};
use access_calls::Access;
use sequence_rules::{Port, memory_port, memory_unit};
use target_calls::Value;

// The number of two words, the lower one first.
#[tactic(auto, using(crate::proofs::UseLemmas::joined_is))]
fn join_words(low: u64, high: u64) -> u64
    ensures { result ≡ (low + high * 2 ^ 32) % 2 ^ 64 }
{
    low.wrapping_add(high.wrapping_mul(0x1_0000_0000))
}

// The value of `Read64`: both words are confirmed, and then used.
#[tactic(auto, using(crate::proofs::Leaves::goes_on))]
fn use_words<A: Access>(low: Value, high: Value, held: &Held, access: &mut A) -> Result<Value, End>
    requires open { (A.reported access.old).end ≡ None }
    ensures { RunsUse (λ m. c.low_and_high m low high) A.cost A.begun A.reported A.identity held.now access.old access.new result }
{
    confirm(access)?;
    let (low, high) = use_both(low, high, access)?;
    Ok(Value::Number(join_words(low, high)))
}

// The second unit of a 64-bit call, at the higher address.
#[tactic(auto, unfolding(sequence_rules::specs::Calls::second_half), using(crate::proofs::Leaves::goes_on))]
fn ask_second_half<A: Access>(
    read: bool,
    ap: u8,
    forgive: bool,
    address: u64,
    value: u64,
    low: Value,
    held: &mut Held,
    access: &mut A,
) -> Result<Value, End>
    requires aligned { address % 8 ≡ 0 }
    requires ready { IsReadyToCall held.old.units (A.reported access.old) }
    ensures { RunsCall (λ m. c.second_half m read (record { ap = ap; forgive = forgive; dp = 0 }) address value low)
        A.cost A.begun A.reported A.identity held.old access.old held.new access.new result }
{
    let unit = memory_unit(4, read, ap, address + 4, value / 0x1_0000_0000);
    let high = ask(unit, forgive, held, access)?;
    if read {
        use_words(low, high, held, access)
    } else {
        Ok(Value::Number(0))
    }
}

// `Read64` and `Write64` are two units, the one at the lower address first.
#[tactic(auto, unfolding(sequence_rules::specs::Calls::two_units), using(crate::proofs::Leaves::goes_on))]
fn ask_two_units<A: Access>(
    read: bool,
    ap: u8,
    forgive: bool,
    address: u64,
    value: u64,
    held: &mut Held,
    access: &mut A,
) -> Result<Value, End>
    requires aligned { address % 8 ≡ 0 }
    requires ready { IsReadyToCall held.old.units (A.reported access.old) }
    ensures { RunsCall (λ m. c.two_units m read (record { ap = ap; forgive = forgive; dp = 0 }) address value)
        A.cost A.begun A.reported A.identity held.old access.old held.new access.new result }
{
    let unit = memory_unit(4, read, ap, address, value);
    let low = ask(unit, forgive, held, access)?;
    ask_second_half(read, ap, forgive, address, value, low, held, access)
}

// A memory call, once the port is known.
#[tactic(auto, unfolding(sequence_rules::specs::Calls::memory_at, sequence_rules::specs::Calls::one_unit, sequence_rules::specs::Calls::or_halt))]
fn access_memory_at<A: Access>(
    size: u8,
    read: bool,
    address: u64,
    value: u64,
    port: Port,
    held: &mut Held,
    access: &mut A,
) -> Result<Value, End>
    requires sized { (size ≡ 1) ⊎ ((size ≡ 2) ⊎ ((size ≡ 4) ⊎ (size ≡ 8))) }
    requires ready { IsReadyToCall held.old.units (A.reported access.old) }
    ensures { RunsCall (λ m. c.memory_at m size read address value (as_port port)) A.cost A.begun A.reported A.identity held.old access.old held.new access.new result }
{
    let ap = match memory_port(size, address, port.ap, port.dp) {
        Ok(ap) => ap,
        Err(cause) => return Err(End::Halted(cause)),
    };
    if size == 8 {
        return ask_two_units(read, ap, port.forgive, address, value, held, access);
    }
    let unit = memory_unit(size, read, ap, address, value);
    ask_for_result(read, unit, port.forgive, held, access)
}

// A memory call of `size` bytes, 1, 2, 4 or 8.
#[tactic(auto, unfolding(sequence_rules::specs::Calls::memory), using(crate::proofs::Leaves::goes_on))]
pub(crate) fn access_memory<A: Access>(
    size: u8,
    read: bool,
    address: u64,
    value: u64,
    held: &mut Held,
    access: &mut A,
) -> Result<Value, End>
    requires sized { (size ≡ 1) ⊎ ((size ≡ 2) ⊎ ((size ≡ 4) ⊎ (size ≡ 8))) }
    requires ready { IsReadyToCall held.old.units (A.reported access.old) }
    ensures { RunsCall (λ m. c.memory m size read address value) A.cost A.begun A.reported A.identity held.old access.old held.new access.new result }
{
    let port = use_port(held, access)?;
    access_memory_at(size, read, address, value, port, held, access)
}
