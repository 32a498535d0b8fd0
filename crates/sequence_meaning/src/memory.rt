//! Calls that access memory.
ghost use Rattle.sequence_rules.specs.Calls as c;
ghost use Rattle.sequence_rules.specs.Direct.{Now, direct};
ghost use Rattle.sequence_rules.specs.Machine.{State};
ghost use Rattle.std.specs.Prelude.{◌≡◌, ◌⊎◌, ◌<◌, ◌^◌, ◌%◌, false, ℕ};
ghost use Rattle.sequence_meaning.specs.Frame.{RunsWithoutSink};

use crate::asking::{ask, ask_for_result, port_of};
use crate::end::{DirectEnd, Stopped};
use crate::held::DirectHeld;
use sequence_rules::{Port, memory_port, memory_unit};
use target_machine::Target;

// The value of `Read64`.
#[tactic(auto, unfolding(crate::proofs::Opened::answers))]
fn join_words(low: u64, high: u64) -> u64
    requires low { low < 2 ^ 32 }
    requires high { high < 2 ^ 32 }
    ensures { (s : State ℕ Now) → c.low_and_high (direct false) low high s ≡ Ok (result, s) }
{
    low + high * 0x1_0000_0000
}

// The second unit of a 64-bit call, at the higher address.
#[tactic(auto, unfolding(crate::proofs::Opened::second_halves), using(crate::proofs::StopLemmas::ends_second_half))]
fn ask_second_half(
    read: bool,
    ap: u8,
    forgive: bool,
    address: u64,
    value: u64,
    low: u64,
    held: &mut DirectHeld,
    target: &mut Target,
) -> Result<u64, Stopped>
    requires aligned { address % 8 ≡ 0 }
    requires low { low < 2 ^ 32 }
    ensures { RunsWithoutSink (c.second_half (direct false) read (record { ap = ap; forgive = forgive; dp = 0 }) address value low)
        held.old target.old held.new target.new result }
{
    let unit = memory_unit(4, read, ap, address + 4, value / 0x1_0000_0000);
    let high = ask(unit, forgive, held, target)?;
    Ok(if read { join_words(low, high) } else { 0 })
}

// `Read64` and `Write64` are two units, the one at the lower address first.
#[tactic(auto, unfolding(sequence_rules::specs::Calls::two_units), using(crate::proofs::StopLemmas::ends_two_units))]
fn ask_two_units(
    read: bool,
    ap: u8,
    forgive: bool,
    address: u64,
    value: u64,
    held: &mut DirectHeld,
    target: &mut Target,
) -> Result<u64, Stopped>
    requires aligned { address % 8 ≡ 0 }
    ensures { RunsWithoutSink (c.two_units (direct false) read (record { ap = ap; forgive = forgive; dp = 0 }) address value)
        held.old target.old held.new target.new result }
{
    let unit = memory_unit(4, read, ap, address, value);
    let low = ask(unit, forgive, held, target)?;
    ask_second_half(read, ap, forgive, address, value, low, held, target)
}

// A memory call, once the port is known.
#[inline(always)]
#[tactic(auto, unfolding(crate::proofs::Opened::memory_calls))]
fn access_memory_at(
    size: u8,
    read: bool,
    address: u64,
    value: u64,
    port: Port,
    held: &mut DirectHeld,
    target: &mut Target,
) -> Result<u64, Stopped>
    requires { (size ≡ 1) ⊎ ((size ≡ 2) ⊎ ((size ≡ 4) ⊎ (size ≡ 8))) }
    ensures { RunsWithoutSink
        (c.memory_at (direct false) size read address value (record { ap = port.ap; forgive = port.forgive; dp = port.dp }))
        held.old target.old held.new target.new result }
{
    let ap = match memory_port(size, address, port.ap, port.dp) {
        Ok(ap) => ap,
        Err(cause) => {
            held.end = DirectEnd::Halted(cause);
            return Err(Stopped);
        }
    };
    if size == 8 {
        ask_two_units(read, ap, port.forgive, address, value, held, target)
    } else {
        ask_for_result(
            read,
            memory_unit(size, read, ap, address, value),
            port.forgive,
            held,
            target,
        )
    }
}

// A memory call of `size` bytes, 1, 2, 4 or 8.
#[tactic(auto, unfolding(sequence_rules::specs::Calls::memory))]
pub(crate) fn access_memory(
    size: u8,
    read: bool,
    address: u64,
    value: u64,
    held: &mut DirectHeld,
    target: &mut Target,
) -> Result<u64, Stopped>
    requires { (size ≡ 1) ⊎ ((size ≡ 2) ⊎ ((size ≡ 4) ⊎ (size ≡ 8))) }
    ensures { RunsWithoutSink (c.memory (direct false) size read address value) held.old target.old held.new target.new result }
{
    access_memory_at(size, read, address, value, port_of(held), held, target)
}

// A memory call of 4 bytes, which most are: as the size is known, its code is shorter.
#[tactic(auto, unfolding(sequence_rules::specs::Calls::memory))]
pub(crate) fn access_word(
    read: bool,
    address: u64,
    value: u64,
    held: &mut DirectHeld,
    target: &mut Target,
) -> Result<u64, Stopped>
    ensures { RunsWithoutSink (c.memory (direct false) 4 read address value) held.old target.old held.new target.new result }
{
    access_memory_at(4, read, address, value, port_of(held), held, target)
}
