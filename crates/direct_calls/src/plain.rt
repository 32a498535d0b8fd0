//! Accesses that forgive nothing.
ghost use Rattle.std.specs.Prelude.{◌≡◌, ℕ, ◌<◌, ◌*◌, ◌^◌, ◌%◌, ◌⊎◌, List, MatchOption, OnErr, true, false};
ghost use Rattle.target_machine.specs.Plain.{call_done, cfg_actions, contains, has_large, in_order, is_fault, memory_actions, needs_cfg};
ghost use Rattle.target_machine.specs.Sound.{IsSound, IsSoundMemory};
ghost use Rattle.target_machine.specs.declared.unit.Call.TheVariants as calls;
ghost use Rattle.direct_calls.specs.Made.{IsDone, IsRefused, MadeAs, call_end_of, memory_end_by, takes_memory};

use crate::accesses::{has_faulted, make_all, make_next};
use crate::made::{Made, made_of};
use dap_base::OutOfMemory;
use target_calls::accesses::{
    access_ap, access_dp, access_drw, from_lanes, high_of, low_of, select,
};
use target_machine::registers::{CFG, CFG_LA, CSW, TAR, TAR_HIGH};
use target_machine::{Outcome, Target, Unit, attempt, plain_csw};

// The AP is in the list.
fn is_among(large: &[u8], ap: u8) -> bool
    ensures { result ≡ contains large.now ap }
{
    for known in large {
        if *known == ap {
            return true;
        }
    }
    false
}

// The accesses of a memory access, each by itself.
fn transfer_by_each(
    target: &mut Target,
    is_large: bool,
    size: u8,
    read: bool,
    ap: u8,
    address: u64,
    value: u32,
) -> Outcome
    requires { read ≡ false → value * 2 ^ (8 * (address % 4)) < 2 ^ 32 }
    ensures { record { outcome = result; next = target.new } ≡ in_order target.old (memory_actions target.old is_large size read ap address value) }
{
    let selected = attempt(target, select(ap, 0));
    let csw = make_next(target, selected, access_ap(true, CSW, 0));
    if has_faulted(csw) {
        return csw;
    }
    let csw = access_ap(false, CSW, plain_csw(csw.number(), size));
    let mut last = attempt(target, csw);
    if is_large {
        last = make_next(target, last, access_ap(false, TAR_HIGH, high_of(address)));
    }
    last = make_next(target, last, access_ap(false, TAR, low_of(address)));
    make_next(target, last, access_drw(read, address, value))
}

// The accesses of a memory access, once it is known whether its AP has large addresses. Where the AP can be aimed, those before DRW are
// one step.
fn transfer(
    target: &mut Target,
    is_large: bool,
    size: u8,
    read: bool,
    ap: u8,
    address: u64,
    value: u32,
) -> Outcome
    requires { read ≡ false → value * 2 ^ (8 * (address % 4)) < 2 ^ 32 }
    ensures { record { outcome = result; next = target.new } ≡ in_order target.old (memory_actions target.old is_large size read ap address value) }
{
    if !is_large && target.aim(ap, size, low_of(address)) {
        attempt(target, access_drw(read, address, value))
    } else {
        transfer_by_each(target, is_large, size, read, ap, address, value)
    }
}

// How a memory access ends by what DRW answered.
fn memory_end(size: u8, read: bool, address: u64, outcome: Outcome) -> Made
    requires { (size ≡ 1) ⊎ ((size ≡ 2) ⊎ (size ≡ 4)) }
    ensures { call_end_of result ≡ memory_end_by size read address outcome }
{
    match made_of(outcome) {
        Made::Answered(word) if read => Made::Answered(from_lanes(size, address, word)),
        made => made,
    }
}

// Reads CFG: whether the AP has large addresses; `None` at a fault.
fn read_cfg(target: &mut Target, ap: u8) -> Option<bool>
    ensures next { target.new ≡ (in_order target.old (cfg_actions ap)).next }
    ensures large { MatchOption result (is_fault (in_order target.old (cfg_actions ap)).outcome ≡ true)
        (λ large. (is_fault (in_order target.old (cfg_actions ap)).outcome ≡ false) × (large ≡ has_large target.old ap)) }
{
    match make_all(
        target,
        &[select(ap, CFG / 16), access_ap(true, CFG % 16, 0)],
    ) {
        Outcome::Value(cfg) => Some(cfg & CFG_LA != 0),
        Outcome::Done => Some(false),
        Outcome::Fault => None,
    }
}

// CFG has to be read: the address is over 0xFFFFFFFF, and the AP is not known to have large addresses.
fn reads_cfg(large: &[u8], ap: u8, address: u64) -> bool
    ensures { result ≡ needs_cfg large.now ap address }
{
    address > 0xFFFF_FFFF && !is_among(large, ap)
}

// A memory access for which CFG has to be read.
fn make_wide_memory(
    target: &mut Target,
    large: &mut Vec<u8>,
    size: u8,
    read: bool,
    ap: u8,
    address: u64,
    value: u32,
) -> Result<Made, OutOfMemory>
    requires sound { IsSoundMemory size read address value }
    requires wide { needs_cfg large.old.items ap address ≡ true }
    ensures made { MadeAs (call_done target.old large.old.items false (calls.Access (Unit.Memory size read ap address value))) result target.new large.new.items }
    ensures refused { OnErr result (IsRefused true target.old target.new large.old.items large.new.items) }
{
    // The AP is listed first, so that nothing was made where memory is refused.
    let known = large.len();
    let Ok(()) = large.push(ap) else {
        return Err(OutOfMemory);
    };
    let Some(is_large) = read_cfg(target, ap) else {
        large.truncate(known);
        return Ok(Made::Faulted);
    };
    if is_large {
        let outcome = transfer(target, true, size, read, ap, address, value);
        return Ok(memory_end(size, read, address, outcome));
    }
    large.truncate(known);
    Ok(Made::Small)
}

// A memory access that forgives nothing.
#[inline(always)]
fn make_plain_memory(
    target: &mut Target,
    large: &mut Vec<u8>,
    size: u8,
    read: bool,
    ap: u8,
    address: u64,
    value: u32,
) -> Result<Made, OutOfMemory>
    requires { IsSoundMemory size read address value }
    ensures made { MadeAs (call_done target.old large.old.items false (calls.Access (Unit.Memory size read ap address value))) result target.new large.new.items }
    ensures refused { OnErr result (IsRefused (needs_cfg large.old.items ap address) target.old target.new large.old.items large.new.items) }
{
    if reads_cfg(large, ap, address) {
        return make_wide_memory(target, large, size, read, ap, address, value);
    }
    let is_large = is_among(large, ap);
    let outcome = transfer(target, is_large, size, read, ap, address, value);
    Ok(memory_end(size, read, address, outcome))
}

// An access of an AP register that forgives nothing.
fn make_plain_ap(target: &mut Target, read: bool, ap: u8, addr: u8, value: u32) -> Made
    ensures { (large : List ℕ) → IsDone (call_done target.old large false (calls.Access (Unit.Ap read ap addr value))) (call_end_of result) target.new large }
{
    let accesses = [select(ap, addr / 16), access_ap(read, addr % 16, value)];
    made_of(make_all(target, &accesses))
}

// An access of a DP register.
fn make_plain_dp(target: &mut Target, read: bool, addr: u8, value: u32) -> Made
    ensures { (large : List ℕ) → IsDone (call_done target.old large false (calls.Access (Unit.Dp read addr value))) (call_end_of result) target.new large }
{
    made_of(attempt(target, access_dp(read, addr, value)))
}

// A poll.
fn make_plain_poll(target: &mut Target, mask: u32, value: u32, turns: u32) -> Made
    ensures { (large : List ℕ) → IsDone (call_done target.old large false (calls.Access (Unit.Poll mask value turns))) (call_end_of result) target.new large }
{
    let end = target.poll(mask, value, turns);
    made_of(end.outcome)
}

// An access that forgives nothing.
#[inline(always)]
pub(crate) fn make_plain(
    target: &mut Target,
    unit: Unit,
    large: &mut Vec<u8>,
) -> Result<Made, OutOfMemory>
    requires { IsSound unit }
    ensures made { MadeAs (call_done target.old large.old.items false (calls.Access unit)) result target.new large.new.items }
    ensures refused { OnErr result (IsRefused (takes_memory large.old.items (calls.Access unit)) target.old target.new large.old.items large.new.items) }
{
    match unit {
        Unit::Memory {
            size,
            read,
            ap,
            address,
            value,
        } => make_plain_memory(target, large, size, read, ap, address, value),
        Unit::Ap {
            read,
            ap,
            addr,
            value,
        } => Ok(make_plain_ap(target, read, ap, addr, value)),
        Unit::Dp { read, addr, value } => Ok(make_plain_dp(target, read, addr, value)),
        Unit::Poll { mask, value, turns } => Ok(make_plain_poll(target, mask, value, turns)),
    }
}
