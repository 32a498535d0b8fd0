//! What an access keeps of its calls: what was asked, the results, the journal, and the end.
ghost use Rattle.std.specs.Prelude.{◌≡◌, ◌+◌, ◌-◌, ◌<◌, ◌≤◌, Some, None, length, take, slice_get, ◌^◌, ◌*◌, min, nat_lt, OnOk, OnErr};
ghost use Rattle.target_machine.specs.Sound.{IsSoundCall};
ghost use Rattle.target_calls.specs.Asks.{settled_last};
ghost use Rattle.target_calls.specs.NeedPoints.{asks_at_use};
ghost use Rattle.access_calls.specs.Issued.{lines_before_kept};
ghost use Rattle.access_calls.specs.declared.stop.Stop.TheVariants as Stop;
ghost use Rattle.batch_packer.specs.FlightEnds.{IsShort};
ghost use Rattle.packed_access.specs.Tails.{IsRoomier};
ghost use Rattle.packed_access.specs.Logs.{Becomes, IsLogCut, IsOfCall, IsSoundState, LogIsStopped, all_confirmed, all_issued, asks_of};
ghost use Rattle.packed_access.specs.Logs.{entries_confirmed, entries_pending, most_entries, nothing_logged, pending_place, result_at, result_for};
ghost use Rattle.packed_access.specs.Logs.{log_with_call, log_with_entry, with_asks, with_needs, with_result};

use crate::confirmed::Confirmed;
use crate::results::result_of;
use crate::tails::TailList;
use access_calls::{Issued, Report, Stop, StopCause};
use batch_packer::{Cut, FlightEnd};
use dap_base::OutOfMemory;
use std::alloc::Global;
use std::marker::Model;
use target_calls::{Ask, Part, Slot};

// How many entries of the journal a call has at most, with a settling after it.
const MOST_ENTRIES: u32 = 13;

// Takes the memory for one call more and its entries.
fn take_room(
    asks: &mut TailList<Ask>,
    places: &mut TailList<u32>,
    entries: &mut TailList<Issued>,
) -> Result<(), OutOfMemory>
    ensures asks { IsRoomier asks.old asks.new }
    ensures places { IsRoomier places.old places.new }
    ensures entries { IsRoomier entries.old entries.new }
    ensures call { OnOk result ((length asks.new.all < asks.new.room) × (length places.new.all < places.new.room)) }
    ensures room { OnOk result (length entries.new.all + most_entries ≤ entries.new.room) }
{
    asks.reserve(1)?;
    places.reserve(1)?;
    entries.reserve(MOST_ENTRIES)
}

/// What was asked and issued, and how it ended. Contracts see all of it, and how many entries there is room for. Of calls that came
/// their results are kept, and of entries that are confirmed what they count for.
#[derive(Drop)]
pub(crate) struct CallLog {
    // the calls that have not come, and the one before them
    asks: TailList<Ask>,
    // one for each call; 0 where it has not come
    results: Vec<u32>,
    // for each of these calls, the number of the entry that gives its result
    places: TailList<u32>,
    // the entries that are not confirmed
    entries: TailList<Issued>,
    // how many entries there may be
    room: u32,
    // the entries that are confirmed
    confirmed: Confirmed,
    // how many calls were issued whole
    whole: u32,
    // how many calls are known to be answered
    came: u32,
    // how many results are known
    known: u32,
    needs: u64,
    // how many calls had been asked at the last need point
    fence: u32,
    end: Option<Stop>,
    // how many units have their lines before the end
    lines: u32,
    skipped: u32,
}

impl Model for CallLog {
    ghost use Rattle.packed_access.specs.Logs.{IsSoundSenderLog, LogState};

    ghost Value = { LogState };

    ghost view = { λ l. record {
      calls = l.asks.all;
      results = l.results.items;
      places = l.places.all;
      entries = l.entries.all;
      room = l.room;
      confirmed = l.entries.gone;
      whole = l.whole;
      came = l.came;
      known = l.known;
      needs = l.needs;
      fence = l.fence;
      end = l.end;
      lines = l.lines;
      skipped = l.skipped;
    } };

    ghost invariant = { λ l. IsSoundSenderLog l.asks.all l.results.items l.places.all l.room l.entries.all l.entries.gone l.whole l.came l.known l.fence l.end
        l.asks.gone l.places.gone l.entries.room l.confirmed };
}

impl CallLog {
    // Nothing was asked.
    pub(crate) fn new(alloc: Global) -> CallLog
        ensures answer { result ≡ nothing_logged }
        ensures sound { IsSoundState result }
    {
        CallLog {
            asks: TailList::new(alloc),
            results: Vec::new(alloc),
            places: TailList::new(alloc),
            entries: TailList::new(alloc),
            room: 0,
            confirmed: Confirmed::new(),
            whole: 0,
            came: 0,
            known: 0,
            needs: 0,
            fence: 0,
            end: None,
            lines: 0,
            skipped: 0,
        }
    }

    // How many calls were asked.
    pub(crate) fn count(&self) -> u32
        ensures { result ≡ length self.now.calls }
    {
        self.asks.len()
    }

    pub(crate) fn end(&self) -> Option<Stop>
        ensures { result ≡ self.now.end }
    {
        self.end
    }

    pub(crate) fn count_skipped(&self) -> u32
        ensures { result ≡ self.now.skipped }
    {
        self.skipped
    }

    // How many entries were issued and are not confirmed.
    pub(crate) fn count_pending(&self) -> u32
        ensures { result ≡ entries_pending self.now }
    {
        self.entries.len() - self.entries.count_gone()
    }

    // How many calls came, and how many were issued whole.
    pub(crate) fn count_came(&self) -> u32
        ensures { result ≡ self.now.came }
    {
        self.came
    }

    pub(crate) fn count_whole(&self) -> u32
        ensures { result ≡ self.now.whole }
    {
        self.whole
    }

    // One more call is asked. All memory that it will need is taken now; where it is refused nothing is asked.
    pub(crate) fn ask(&mut self, ask: Ask) -> Result<(), OutOfMemory>
        requires sound { IsSoundCall ask.call }
        requires few { length self.old.calls < 10000000 }
        ensures asked { OnOk result (self.new ≡ log_with_call self.old ask self.new.room) }
        ensures room { OnOk result (length self.old.entries + most_entries ≤ self.new.room) }
        ensures refused { OnErr result (self.new ≡ record self.old { room = self.new.room }) }
        ensures longer { self.old.room ≤ self.new.room }
        ensures sound { IsSoundState self.new }
    {
        take_room(&mut self.asks, &mut self.places, &mut self.entries)?;
        self.room = self.room.max(self.entries.len() + MOST_ENTRIES);
        if self.results.push(0).is_err() {
            return Err(OutOfMemory);
        }
        self.places.push(0);
        self.asks.push(ask);
        Ok(())
    }

    // One more entry is issued.
    pub(crate) fn issue(&mut self, unit: u32, part: Part)
        requires open { self.old.end ≡ None }
        requires later { self.old.came ≤ lines_before_kept (record { unit = unit; part = part }) }
        requires unit { IsOfCall (length self.old.calls) (record { unit = unit; part = part }) }
        requires room { length self.old.entries < self.old.room }
        requires bounded { length self.old.entries < most_entries * length self.old.calls }
        ensures answer { Becomes self.new (log_with_entry self.old (record { unit = unit; part = part })) }
    {
        self.entries.push(Issued { unit, part });
    }

    // All entries of the calls that were asked are issued. The last of them gives the result of the last call.
    pub(crate) fn note_all_issued(&mut self)
        requires some { 0 < length self.old.calls }
        ensures answer { Becomes self.new (all_issued self.old) }
    {
        self.whole = self.asks.len();
        self.places
            .set(self.whole - 1, self.entries.len().saturating_sub(1));
    }

    // The place of the entry that gives the result of a call, among those that are not confirmed.
    pub(crate) fn pending_place(&self, index: u32) -> u32
        requires within { index < length self.now.calls }
        requires later { self.now.came ≤ index }
        ensures { result ≡ pending_place self.now index }
    {
        self.places
            .get(index)
            .saturating_sub(self.entries.count_gone())
    }

    // The entry that gives the result of a call gave this word.
    pub(crate) fn take(&mut self, index: u32, word: u32)
        requires within { index < length self.old.calls }
        requires later { self.old.came ≤ index + 1 }
        ensures answer { Becomes self.new (with_result self.old index (result_for (slice_get self.old.calls index) word)) }
    {
        self.results[index as usize] = result_of(&self.asks.get(index).call, word);
    }

    // All entries are confirmed, and all calls that were issued whole came.
    pub(crate) fn confirm(&mut self)
        requires { self.old.end ≡ None }
        ensures answer { Becomes self.new (all_confirmed self.old) }
    {
        self.let_entries_go();
        let last = self.whole.saturating_sub(1);
        self.asks.let_go(last);
        self.places.let_go(last);
        self.came = self.whole;
        self.known = self.whole;
    }

    // All entries are confirmed, and what they count for is kept alone.
    fn let_entries_go(&mut self)
        ensures answer { Becomes self.new (entries_confirmed self.old) }
    {
        self.confirmed.add(self.entries.kept_items());
        let count = self.entries.len();
        self.entries.let_go(count);
    }

    // All entries are confirmed: their replies were received. The last call has not come.
    pub(crate) fn confirm_entries(&mut self)
        ensures answer { Becomes self.new (entries_confirmed self.old) }
    {
        self.let_entries_go();
    }

    // So many need points come, where so many calls have been asked.
    pub(crate) fn need(&mut self, points: u64, calls: u32)
        requires within { calls ≤ length self.old.calls }
        ensures answer { Becomes self.new (with_needs self.old points calls) }
    {
        if points > 0 {
            self.needs = self.needs.saturating_add(points);
            self.fence = calls;
        }
    }

    // The value of a slot is used: the result of its call where it is known, and else 0.
    pub(crate) fn use_slot(&mut self, slot: Slot) -> u64
        ensures answer { Becomes self.new (with_asks self.old (asks_at_use slot (asks_of self.old))) }
        ensures value { result ≡ result_at self.old slot.index }
        ensures bound { result < 2 ^ 32 }
    {
        if slot.index >= self.fence {
            let count = self.asks.len();
            self.need(1, count);
        }
        if slot.index < self.known {
            u64::from(self.results[slot.index as usize])
        } else {
            0
        }
    }

    // One more call was skipped. The count stays at its last value.
    pub(crate) fn skip(&mut self)
        ensures answer { Becomes self.new (record self.old { skipped = min (self.old.skipped + 1) (2 ^ 32 - 1) }) }
    {
        self.skipped = self.skipped.saturating_add(1);
    }

    // A `finish` is made after the last call.
    #[tactic(auto, using(crate::proofs::LogLemmas::marked_sound, crate::proofs::LogLemmas::marked_at))]
    pub(crate) fn mark(&mut self)
        ensures answer { self.new ≡ record self.old { calls = settled_last self.old.calls } }
        ensures sound { IsSoundState self.new }
    {
        let count = self.asks.len();
        if count > 0 {
            let last = self.asks.get(count - 1);
            self.asks.set(
                count - 1,
                Ask {
                    settled: true,
                    ..last
                },
            );
        }
    }

    // Whether the result of this call is known.
    pub(crate) fn is_known(&self, index: u32) -> bool
        ensures { result ≡ nat_lt index self.now.known }
    {
        index < self.known
    }

    // The access ends at a cut: the report.
    #[tactic(auto, using(crate::proofs::LogLemmas::named_here, crate::proofs::LogLemmas::cut_lines, crate::proofs::LogLemmas::cut_later))]
    fn end_at_cut(&mut self, cut: Cut) -> Report
        requires open { self.old.end ≡ None }
        requires performed { cut.performed ≤ entries_pending self.old }
        requires confirmed { cut.confirmed < entries_pending self.old }
        ensures answer { IsLogCut cut.performed cut.confirmed cut.response self.old self.new result }
        ensures sound { IsSoundState self.new }
    {
        let cause = match cut.response {
            0x02 => StopCause::NoAnswer,
            _ => StopCause::Faulted,
        };
        let entries = self.entries.kept_items();
        let named = entries[cut.confirmed as usize];
        let what = self.asks.get(named.unit - 1).call;
        let stop = self.confirmed.stop_report(entries, what, cut, cause);
        let report = stop.report;
        self.skipped = stop.skipped;
        self.lines = stop.lines;
        self.came = stop.lines;
        self.end = Some(Stop::Cut(report));
        report
    }

    // The access ends so, and answers that from now on.
    pub(crate) fn stop(&mut self, end: FlightEnd) -> Stop
        requires open { self.old.end ≡ None }
        requires short { IsShort (entries_pending self.old) (Some end) }
        ensures answer { LogIsStopped end self.old self.new result }
        ensures sound { IsSoundState self.new }
    {
        let stop = match end {
            FlightEnd::Cut(cut) => return Stop::Cut(self.end_at_cut(cut)),
            FlightEnd::BenchFault => Stop::BenchFault {
                issued: self.entries.len(),
                confirmed: self.entries.count_gone(),
            },
            FlightEnd::ReplyBad => Stop::ReplyBad,
        };
        self.end = Some(stop);
        stop
    }
}
