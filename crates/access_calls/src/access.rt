//! What a run asks of an access to the target.
ghost use Rattle.std.specs.Prelude.{◌≡◌, ◌<◌, ◌≤◌, ◌^◌, ◌++◌, ◌∷◌, [], ℕ, Bool, List, Option, None, length, slice_index, OnOk, IfOk, IfErr};
ghost use Rattle.target_machine.specs.Sound.{IsSound, IsSoundProbe};
ghost use Rattle.target_machine.specs.State.{TargetState};
ghost use Rattle.probe_core.specs.Bench.{BenchState};
ghost use Rattle.probe_core.specs.Probe.{target_of};
ghost use Rattle.target_calls.specs.Asks.{is_wide, probe_ask, unit_ask};
ghost use Rattle.target_calls.specs.Journal.{Entry};
ghost use Rattle.target_calls.specs.NeedPoints.{Costs, asks_with_call, asks_at_finish, asks_at_need, asks_at_use};
ghost use Rattle.target_calls.specs.World.{results, small_now, stop};
ghost use Rattle.target_calls.specs.declared.calls.Ask.{Ask};
ghost use Rattle.access_calls.specs.Answers.{HasSlot, IsSmallOnly, IsSmallWhere, StopsCalls, StopsSettling, calls_after, calls_finished};
ghost use Rattle.access_calls.specs.Bounds.{KeepsBoundsIf};
ghost use Rattle.access_calls.specs.CallEnds.{EndsAtAsk, EndsAtFlush, EndsAtValue, InEachOpenWorld, InEachWorld};
ghost use Rattle.access_calls.specs.Causes.{KeepsReplyAt};
ghost use Rattle.access_calls.specs.Growing.{JournalGoesOn, JournalSettles};
ghost use Rattle.access_calls.specs.Left.{IsLeft};
ghost use Rattle.access_calls.specs.Reported.{AccessView, began};
ghost use Rattle.access_calls.specs.Standing.{AccessStands};

use crate::Stop;
use target_calls::{Asked, Slot};
use target_machine::{ProbeCall, Unit};

/// An access to a target: calls are asked one after the other, and their results may come late.
///
/// A call is a unit of a sequence or a command of the probe. What is asked comes to what it comes to alone and at once, each call on the
/// target that the one before it left, whenever it is made. Where the bench is observable, an access knows where it *began*. Then each
/// answer is so in every *world* that is left. A world is the target at the beginning and how many calls are answered before a retry ends.
/// Before that end a world is left for each number from those that came.
///
/// `Cut`, `BenchFault` and `ReplyBad` are ends: from then on each call that can answer the end answers it and sends nothing, and `value`
/// answers on the results that came. `BenchFault` comes only where the bench failed in the call that ended the access, and `Cut` only with
/// the response 02 or 04. `ReplyBad` comes only with a reply that its packet cannot have, received in that call. Where memory is refused
/// nothing is asked and nothing sent, and the access goes on.
pub trait Access {
    /// What it reports at a moment.
    ghost reported: { Self → AccessView };

    /// Which loan its bench is, for a bench that is lent. No call changes it.
    ghost identity: { Self → ℕ };

    /// Its bench had this state when it began. Empty where the bench is not observable.
    ghost begun: { Self → BenchState → Type 0 };

    /// The journal of calls that are asked from a target.
    ghost journal: { TargetState → List Ask → List Entry };

    /// How many need points a call makes by itself.
    ghost cost: { Costs };

    /// Whether it keeps the bounds on packets.
    ghost is_sparing: { Bool };

    /// Asks for an access, which may forgive a fault; that counts for memory and AP accesses alone.
    /// Fewer than 10,000,000 calls may have been asked before. Answers the place of the result, or
    /// `Small` where the address is over 0xFFFFFFFF and the access port has no large addresses: its
    /// result is then 0. At an end the access counts as asked, except where the end came before.
    fn ask(&mut self, unit: Unit, forgive: bool) -> Result<Asked, Stop>
        requires sound { IsSound unit }
        requires few { length (reported self.old).asks.calls < 10000000 }
        ensures slot { IfOk result (HasSlot (length (reported self.old).asks.calls)) }
        ensures wide { IfOk result (IsSmallOnly (is_wide unit)) }
        ensures calls { (reported self.new).asks.calls ≡ calls_after (reported self.old) (unit_ask unit forgive) result }
        ensures needs { InEachWorld begun reported self.old self.new (λ w. OnOk result ((reported self.new).asks
            ≡ asks_with_call (cost w.target (reported self.old).asks.calls (unit_ask unit forgive)) (unit_ask unit forgive) (reported self.old).asks)) }
        ensures small { InEachWorld begun reported self.old self.new (λ w.
            IfOk result (IsSmallWhere (small_now w (reported self.old).asks.calls (unit_ask unit forgive)))) }
        ensures stops { InEachOpenWorld begun reported self.old self.new (λ w.
            IfErr result (StopsCalls w ((reported self.old).asks.calls ++ unit_ask unit forgive ∷ []) (reported self.new).lines)) }
        ensures ends { EndsAtAsk begun reported identity result self.old self.new };

    /// Makes all that was asked, and then a command of the probe. Fewer than 10,000,000 calls may
    /// have been asked before. Answers the result, which for pins is their levels and else 0. At an
    /// end the command counts as asked, except where the end came before.
    fn command(&mut self, call: ProbeCall) -> Result<u64, Stop>
        requires sound { IsSoundProbe call }
        requires few { length (reported self.old).asks.calls < 10000000 }
        ensures bound { IfOk result (λ n. n < 2 ^ 32) }
        ensures calls { (reported self.new).asks.calls ≡ calls_after (reported self.old) (probe_ask call) result }
        ensures needs { InEachWorld begun reported self.old self.new (λ w. OnOk result ((reported self.new).asks
            ≡ asks_with_call (cost w.target (reported self.old).asks.calls (probe_ask call)) (probe_ask call) (reported self.old).asks)) }
        ensures value { InEachWorld begun reported self.old self.new (λ w.
            IfOk result (λ n. n ≡ slice_index (results w ((reported self.old).asks.calls ++ probe_ask call ∷ [])) (length (reported self.old).asks.calls))) }
        ensures whole { InEachWorld begun reported self.old self.new (λ w. OnOk result (stop w ((reported self.old).asks.calls ++ probe_ask call ∷ []) ≡ None)) }
        ensures stops { InEachOpenWorld begun reported self.old self.new (λ w.
            IfErr result (StopsCalls w ((reported self.old).asks.calls ++ probe_ask call ∷ []) (reported self.new).lines)) }
        ensures known { OnOk result ((reported self.new).known ≡ length (reported self.new).asks.calls) }
        ensures ends { EndsAtAsk begun reported identity result self.old self.new };

    /// The result of a call, below 2^32, and 0 for a place that was not answered by `ask`. Makes what
    /// was asked where the result has not come; a result that was answered once, or came before, is
    /// answered from then on, also after an end. Takes no memory, and answers no `OutOfMemory`.
    fn value(&mut self, slot: Slot) -> Result<u64, Stop>
        ensures bound { IfOk result (λ n. n < 2 ^ 32) }
        ensures value { InEachWorld begun reported self.old self.new (λ w. IfOk result (λ n. n ≡ slice_index (results w (reported self.old).asks.calls) slot.index)) }
        ensures came { slot.index < (reported self.old).known → IfErr result (λ s. ⊥) }
        ensures known { slot.index < length (reported self.old).asks.calls → OnOk result (slot.index < (reported self.new).known) }
        ensures asks { OnOk result ((reported self.new).asks ≡ asks_at_use slot (reported self.old).asks) }
        ensures calls { (reported self.new).asks.calls ≡ (reported self.old).asks.calls }
        ensures stops { InEachOpenWorld begun reported self.old self.new (λ w. IfErr result (StopsCalls w (reported self.old).asks.calls (reported self.new).lines)) }
        ensures ends { EndsAtValue begun reported identity result self.old self.new };

    /// Makes all that was asked. Takes no memory, and answers no `OutOfMemory`.
    fn flush(&mut self) -> Result<(), Stop>
        ensures whole { InEachWorld begun reported self.old self.new (λ w. OnOk result (stop w (reported self.old).asks.calls ≡ None)) }
        ensures asks { OnOk result ((reported self.new).asks ≡ asks_at_need (reported self.old).asks) }
        ensures calls { (reported self.new).asks.calls ≡ (reported self.old).asks.calls }
        ensures stops { InEachOpenWorld begun reported self.old self.new (λ w. IfErr result (StopsCalls w (reported self.old).asks.calls (reported self.new).lines)) }
        ensures ends { EndsAtFlush begun reported identity result self.old self.new };

    /// Makes all that was asked, and leaves the target as the calls do, CSW and TAR among it. Takes no
    /// memory, and answers no `OutOfMemory`. At an end the last call is marked all the same, except
    /// where the end came before.
    fn finish(&mut self) -> Result<(), Stop>
        ensures whole { InEachWorld begun reported self.old self.new (λ w. OnOk result (stop w (reported self.old).asks.calls ≡ None)) }
        ensures asks { OnOk result ((reported self.new).asks ≡ asks_at_need (asks_at_finish (reported self.old).asks)) }
        ensures calls { (reported self.new).asks.calls ≡ calls_finished (reported self.old) }
        ensures stops { InEachOpenWorld begun reported self.old self.new (λ w. IfErr result (StopsSettling w (reported self.old).asks.calls (reported self.new).lines)) }
        ensures ends { EndsAtFlush begun reported identity result self.old self.new };

    /// The packet of the exchange that ended it, at most 1,024 bytes: at a `Cut` or `ReplyBad` the one
    /// that the reply answers, and else nothing.
    fn sent(&self) -> &[u8]
        ensures sent { result.now ≡ (reported self.now).sent }
        ensures bound { length result.now ≤ 1024 };

    /// The reply of the exchange that ended it, at most 1,024 bytes: at a `Cut` or `ReplyBad` the one
    /// with the response, or the bad one, and else nothing.
    fn got(&self) -> &[u8]
        ensures got { result.now ≡ (reported self.now).got }
        ensures bound { length result.now ≤ 1024 };

    /// How many calls were skipped: they forgive a fault, and met one.
    fn skipped(&self) -> u32
        ensures skipped { result ≡ (reported self.now).skipped };

    /// The journal of more calls begins with the journal of the first of them.
    ghost grows: { JournalGoesOn journal };

    /// The journal of calls that a `finish` follows begins with the journal of the calls.
    ghost settles: { JournalSettles journal };

    /// A packet and a reply are kept only at `Cut` and `ReplyBad`.
    ghost keeps: { (a : Self) → KeepsReplyAt (reported a).end (reported a) };

    /// How far the target has come with the journal; and at an end, the numbers of the end.
    ghost stands: { (a : Self) (m : BenchState) (answered : Option ℕ) → begun a m → IsLeft (reported a) answered
        → AccessStands journal (reported a) (began m answered) };

    /// How few packets it has sent, where it keeps the bounds.
    ghost spares: { (a : Self) (m : BenchState) (answered : Option ℕ) → begun a m → IsLeft (reported a) answered
        → KeepsBoundsIf is_sparing (journal (target_of m.probe) (reported a).asks.calls) (reported a) (began m answered) };
}

impl<A: Access> Access for &mut A {
    ghost reported = { λ a. A.reported a.now };

    ghost identity = { λ a. a.ghost_name };

    ghost begun = { λ a m. A.begun a.now m };

    ghost journal = { A.journal };

    ghost cost = { A.cost };

    ghost is_sparing = { A.is_sparing };

    ghost grows = { A.grows };

    ghost settles = { A.settles };

    ghost keeps = { λ a. A.keeps a.now };

    ghost stands = { λ a m answered is left. A.stands a.now m answered is left };

    ghost spares = { λ a m answered is left. A.spares a.now m answered is left };

    fn ask(&mut self, unit: Unit, forgive: bool) -> Result<Asked, Stop> {
        (**self).ask(unit, forgive)
    }

    fn command(&mut self, call: ProbeCall) -> Result<u64, Stop> {
        (**self).command(call)
    }

    fn value(&mut self, slot: Slot) -> Result<u64, Stop> {
        (**self).value(slot)
    }

    fn flush(&mut self) -> Result<(), Stop> {
        (**self).flush()
    }

    fn finish(&mut self) -> Result<(), Stop> {
        (**self).finish()
    }

    fn sent(&self) -> &[u8] {
        (**self).sent()
    }

    fn got(&self) -> &[u8] {
        (**self).got()
    }

    fn skipped(&self) -> u32 {
        (**self).skipped()
    }
}
