//! Accesses whose results are answered at once.
ghost use Rattle.std.specs.Prelude.{◌≡◌, ◌+◌, ◌*◌, ◌≤◌, ◌%◌, ◌^◌, true, [], length, IfOk, OnOk};
ghost use Rattle.target_calls.specs.Asks.{unit_ask};
ghost use Rattle.access_calls.specs.Asking.{EndsAsking, IsSoundNarrow, MayAsk};
ghost use Rattle.sequels.specs.Sequel.{asks};
ghost use Rattle.rom_scan.specs.Components.{base_ask, word_ask, words_sequel};
ghost use Rattle.rom_scan.specs.Frame.{GivesAsking};
ghost use Rattle.rom_scan.specs.Meets.{GivesBy, GivesEnd};

use access_calls::{Access, Stop};
use arrayvec::ArrayVec;
use target_calls::Asked;
use target_machine::Unit;

// The word at an address.
pub(crate) fn word_unit(ap: u8, address: u32) -> Unit
    requires { address % 4 ≡ 0 }
    ensures asks { unit_ask result true ≡ word_ask ap address }
    ensures narrow { IsSoundNarrow result }
{
    Unit::Memory {
        size: 4,
        read: true,
        ap,
        address: u64::from(address),
        value: 0,
    }
}

// The base of the components of an access port.
pub(crate) fn base_unit(ap: u8) -> Unit
    ensures asks { unit_ask result true ≡ base_ask ap }
    ensures narrow { IsSoundNarrow result }
{
    Unit::Ap {
        read: true,
        ap,
        addr: 0xF8,
        value: 0,
    }
}

// An access that forgives a fault, and its result at once.
#[tactic(auto, using(access_calls::proofs::KeepLemmas::goes_trans))]
pub(crate) fn ask_now<A: Access>(unit: Unit, access: &mut A) -> Result<u32, Stop>
    requires narrow { IsSoundNarrow unit }
    requires may { MayAsk 9999999 (A.reported access.old) }
    ensures gives { GivesAsking A.begun A.reported access.old access.new (λ w lines. GivesEnd w lines (asks (unit_ask unit true)) result) }
    ensures count { OnOk result (length (A.reported access.new).asks.calls ≡ length (A.reported access.old).asks.calls + 1) }
    ensures ends { EndsAsking A.begun A.reported A.identity result access.old access.new }
{
    let slot = match access.ask(unit, true)? {
        Asked::Slot(slot) => slot,
        Asked::Small => unreachable!(),
    };
    access.flush()?;
    match access.value(slot) {
        Ok(value) => Ok(value as u32),
        Err(_) => unreachable!(),
    }
}

// So many words from an address on.
#[tactic(auto, using(access_calls::proofs::KeepLemmas::goes_trans, access_calls::proofs::KeepLemmas::goes_same))]
pub(crate) fn read_words<A: Access>(
    ap: u8,
    address: u32,
    count: u8,
    access: &mut A,
) -> Result<ArrayVec<u32, 4>, Stop>
    requires count { count ≤ 4 }
    requires aligned { address % 4 ≡ 0 }
    requires low { address + 4 * count ≤ 2 ^ 32 }
    requires may { MayAsk 9000000 (A.reported access.old) }
    ensures gives { GivesAsking A.begun A.reported access.old access.new (λ w lines. GivesBy (λ v. v.items) w lines (words_sequel ap count address []) result) }
    ensures items { IfOk result (λ v. length v.items ≡ count) }
    ensures count { OnOk result (length (A.reported access.new).asks.calls ≡ length (A.reported access.old).asks.calls + count) }
    ensures ends { EndsAsking A.begun A.reported A.identity result access.old access.new }
{
    let mut read = ArrayVec::<u32, 4>::new();
    for i in 0..count {
        let word = ask_now(word_unit(ap, address + 4 * i as u32), access)?;
        read.push(word);
    }
    Ok(read)
}
