//! Copies a word of memory, and says so in a line.
ghost use Rattle.std.specs.Prelude.{◌≡◌, ◌<◌, ◌%◌, ◌++◌, ◌∷◌, [], None, false, length, OnOk, IfOk, IfErr};
ghost use Rattle.target_machine.specs.Sound.{IsSound};
ghost use Rattle.probe_core.specs.Bench.{BenchState};
ghost use Rattle.target_calls.specs.Asks.{is_wide, unit_ask};
ghost use Rattle.target_calls.specs.NeedPoints.{nothing_asked};
ghost use Rattle.access_calls.specs.Answers.{StopsCalls};
ghost use Rattle.access_calls.specs.Asking.{MayAsk};
ghost use Rattle.access_calls.specs.CallEnds.{EndsAtAsk, InEachWorld};
ghost use Rattle.access_calls.specs.Copy.{AccessEndsAs, HasSinkCause, IsCopyEnd, copy_result, read_word, write_word};
ghost use Rattle.access_calls.specs.Keeps.{KeepsAccess};
ghost use Rattle.access_calls.specs.Left.{answered_by};
ghost use Rattle.access_calls.specs.Reported.{world_from};

use crate::{Access, Stop};
use dap_base::{Failed, Sink};
use target_calls::{Asked, Slot};
use target_machine::Unit;

/// How the copy of a word ends.
#[derive(Clone, Copy, Debug, PartialEq, Eq)]
pub enum CopyEnd {
    /// The word was copied, and the line written.
    Done,
    /// The access stopped.
    Stopped(Stop),
    /// The sink failed. The word was copied.
    WriteFault,
}

fn read_word(address: u32) -> Unit
    requires { address % 4 ≡ 0 }
    ensures answer { result ≡ read_word address }
    ensures sound { IsSound result }
    ensures narrow { is_wide result ≡ false }
{
    Unit::Memory {
        size: 4,
        read: true,
        ap: 0,
        address: u64::from(address),
        value: 0,
    }
}

fn write_word(address: u32, value: u32) -> Unit
    requires { address % 4 ≡ 0 }
    ensures answer { result ≡ write_word address value }
    ensures sound { IsSound result }
    ensures narrow { is_wide result ≡ false }
{
    Unit::Memory {
        size: 4,
        read: false,
        ap: 0,
        address: u64::from(address),
        value,
    }
}

// Asks for an access that has an address of 32 bits.
fn ask<A: Access>(unit: Unit, access: &mut A) -> Result<Slot, Stop>
    requires sound { IsSound unit }
    requires narrow { is_wide unit ≡ false }
    requires may { MayAsk 9999999 (A.reported access.old) }
    ensures slot { IfOk result (λ slot. slot.index ≡ length (A.reported access.old).asks.calls) }
    ensures calls { OnOk result ((A.reported access.new).asks.calls ≡ (A.reported access.old).asks.calls ++ unit_ask unit false ∷ []) }
    ensures stops { InEachWorld A.begun A.reported access.old access.new (λ w.
        IfErr result (StopsCalls w ((A.reported access.old).asks.calls ++ unit_ask unit false ∷ []) (A.reported access.new).lines)) }
    ensures ends { EndsAtAsk A.begun A.reported A.identity result access.old access.new }
{
    match access.ask(unit, false) {
        Ok(Asked::Slot(slot)) => Ok(slot),
        Ok(Asked::Small) => unreachable!(),
        Err(stop) => Err(stop),
    }
}

/// Reads the word at one address by the access port 0, writes it to another, and then writes a line.
/// Both addresses are multiples of 4, and nothing was asked of the access before. `Stopped` comes only with the
/// end of the access or where memory was refused, `WriteFault` only where the sink failed.
#[tactic(auto, using(crate::proofs::KeepLemmas::goes_trans))]
pub fn copy_word<A: Access, K: Sink>(from: u32, to: u32, access: &mut A, sink: &mut K) -> CopyEnd
    requires source { from % 4 ≡ 0 }
    requires goal { to % 4 ≡ 0 }
    requires open { (A.reported access.old).end ≡ None }
    requires fresh { (A.reported access.old).asks ≡ nothing_asked }
    ensures answer { (m : BenchState) → A.begun access.old m
        → IsCopyEnd result (A.reported access.new) (copy_result (world_from m (answered_by (A.reported access.new))) from to) (K.written sink.old) (K.written sink.new) }
    ensures end { AccessEndsAs result (A.reported access.new).end }
    ensures cause { HasSinkCause result (K.faults sink.old) (K.faults sink.new) }
    ensures keeps { KeepsAccess A.begun A.reported A.identity access.old access.new }
{
    let slot = match ask(read_word(from), access) {
        Ok(slot) => slot,
        Err(stop) => return CopyEnd::Stopped(stop),
    };
    let value = match access.value(slot) {
        Ok(value) => value as u32,
        Err(stop) => return CopyEnd::Stopped(stop),
    };
    if let Err(stop) = ask(write_word(to, value), access) {
        return CopyEnd::Stopped(stop);
    }
    if let Err(stop) = access.flush() {
        return CopyEnd::Stopped(stop);
    }
    if let Err(Failed) = sink.put(b"copied\n") {
        return CopyEnd::WriteFault;
    }
    match access.finish() {
        Ok(()) => CopyEnd::Done,
        Err(stop) => CopyEnd::Stopped(stop),
    }
}
