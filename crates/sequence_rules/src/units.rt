//! What calls of functions ask for: units and commands of the probe, with values cut to size, or why the calls halt.

ghost use Rattle.std.specs.Prelude.{◌≡◌, ◌⊎◌, ◌%◌, ◌^◌, ◌≤◌, IfOk, if◌then◌else◌};
ghost use Rattle.target_machine.specs.Sound.{IsSound, IsSoundProbe};
ghost use Rattle.sequence_rules.specs.Calls as spec;

use target_machine::{HaltCause, ProbeCall, Unit};

/// The lowest bits of `bits`: `count` of them, from 1 to 64.
pub fn low_bits(count: u8, bits: u64) -> u64
    requires some { 1 ≤ count }
    requires most { count ≤ 64 }
    ensures { result ≡ bits % 2 ^ count }
{
    if count == 64 {
        bits
    } else {
        bits % (1u64 << count)
    }
}

/// A memory access of `size` bytes, 1, 2 or 4, through access port `ap`. Where it writes, `value` is cut to its size.
#[tactic(auto, unfolding(crate::specs::Calls::memory_unit))]
pub fn memory_unit(size: u8, read: bool, ap: u8, address: u64, value: u64) -> Unit
    requires { (size ≡ 1) ⊎ ((size ≡ 2) ⊎ (size ≡ 4)) }
    ensures unit { result ≡ spec.memory_unit size read ap address value }
    ensures sound { address % size ≡ 0 → IsSound result }
{
    let kept = match size {
        1 => value % 0x100,
        2 => value % 0x1_0000,
        _ => value % 0x1_0000_0000,
    };
    Unit::Memory {
        size,
        read,
        ap,
        address,
        value: if read { 0 } else { kept as u32 },
    }
}

/// The access port of a memory call of `size` bytes, 1, 2, 4 or 8, where `__ap` and `__dp` are these. `Unsupported` where `dp` is
/// not 0, then `AddressTooLarge` where `ap` is over 255, then `Misaligned` where the address is no multiple of the size.
#[tactic(auto, unfolding(crate::specs::Calls::memory_port))]
pub fn memory_port(size: u8, address: u64, ap: u64, dp: u64) -> Result<u8, HaltCause>
    requires { 1 ≤ size }
    ensures answer { result ≡ spec.memory_port size address ap dp }
    ensures ap { IfOk result (λ port. port ≡ ap) }
    ensures dp { IfOk result (λ port. dp ≡ 0) }
    ensures aligned { IfOk result (λ port. address % size ≡ 0) }
{
    if dp != 0 {
        return Err(HaltCause::Unsupported);
    }
    let Ok(port) = u8::try_from(ap) else {
        return Err(HaltCause::AddressTooLarge);
    };
    if address % u64::from(size) != 0 {
        return Err(HaltCause::Misaligned);
    }
    Ok(port)
}

/// The unit of `ReadAP`, where it reads, or of `WriteAP`, whose value is cut to 32 bits, where `__ap` and `__dp` are these.
/// `Unsupported` where `dp` is not 0, then `AddressTooLarge` where `ap` is over 255 or `addr` over 0xFC, then `Misaligned` where
/// `addr` is no multiple of 4.
#[tactic(auto, unfolding(crate::specs::Calls::ap_unit))]
pub fn ap_unit(read: bool, addr: u64, value: u64, ap: u64, dp: u64) -> Result<Unit, HaltCause>
    ensures answer { result ≡ spec.ap_unit read addr value ap dp }
    ensures sound { IfOk result (λ unit. IsSound unit) }
{
    if dp != 0 {
        return Err(HaltCause::Unsupported);
    }
    let Ok(ap) = u8::try_from(ap) else {
        return Err(HaltCause::AddressTooLarge);
    };
    if addr > 0xFC {
        return Err(HaltCause::AddressTooLarge);
    }
    if addr % 4 != 0 {
        return Err(HaltCause::Misaligned);
    }
    Ok(Unit::Ap {
        read,
        ap,
        addr: addr as u8,
        value: written_word(read, value),
    })
}

/// The unit of `ReadDP`, where it reads, or of `WriteDP`, whose value is cut to 32 bits, where `__dp` is this. `Unsupported` where
/// `dp` is not 0, where 0x8 is read, and at 0xC, then `AddressTooLarge` where `addr` is over 0xC, then `Misaligned` where `addr` is
/// no multiple of 4.
#[tactic(auto, unfolding(crate::specs::Calls::dp_unit))]
pub fn dp_unit(read: bool, addr: u64, value: u64, dp: u64) -> Result<Unit, HaltCause>
    ensures answer { result ≡ spec.dp_unit read addr value dp }
    ensures sound { IfOk result (λ unit. IsSound unit) }
{
    if dp != 0 || (read && addr == 8 || addr == 0xC) {
        return Err(HaltCause::Unsupported);
    }
    if addr > 0xC {
        return Err(HaltCause::AddressTooLarge);
    }
    if addr % 4 != 0 {
        return Err(HaltCause::Misaligned);
    }
    Ok(Unit::Dp {
        read,
        addr: addr as u8,
        value: written_word(read, value),
    })
}

// The word that a write writes; 0 where a register is read.
fn written_word(read: bool, value: u64) -> u32
    ensures { result ≡ (if read then 0 else value % 2 ^ 32) }
{
    if read {
        0
    } else {
        (value % 0x1_0000_0000) as u32
    }
}

/// The command of `DAP_SWJ_Pins`: the lowest 8 bits of `output` and of `select`, and a wait in microseconds.
/// `ArgumentOutOfRange` where the wait is over 2^32 - 1.
#[tactic(auto, unfolding(crate::specs::Calls::pins_command))]
pub fn pins_command(output: u64, select: u64, wait: u64) -> Result<ProbeCall, HaltCause>
    ensures answer { result ≡ spec.pins_command output select wait }
    ensures sound { IfOk result (λ call. IsSoundProbe call) }
{
    if wait > 0xFFFF_FFFF {
        return Err(HaltCause::ArgumentOutOfRange);
    }
    Ok(ProbeCall::Pins {
        output: (output % 256) as u8,
        select: (select % 256) as u8,
        wait: wait as u32,
    })
}
