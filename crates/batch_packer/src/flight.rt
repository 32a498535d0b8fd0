//! Flights: many accesses in few packets.
ghost use Rattle.std.specs.Prelude.{◌≡◌, ◌+◌, ◌<◌, ◌≤◌, ◌++◌, ◌∷◌, [], true, false, length, None, Some, IfOk, IfSome, MatchResult};
ghost use Rattle.probe_core.specs.Ranges.{AreLimits};
ghost use Rattle.flight_forms.specs.Packing.{IsTaken};
ghost use Rattle.batch_packer.specs.Exchanges.{GoesOnOver, IsOpen, StepsWhere};
ghost use Rattle.batch_packer.specs.FlightEnds.{EndsOver, HasEndCause, IsShort, got_replies};
ghost use Rattle.batch_packer.specs.FlightStates.{EndedBy, FlownBy, MaySend, can_resume, can_resume_by, has_room};
ghost use Rattle.batch_packer.specs.FlightStates.{item_at, items_kept, new_flight, sent_form};
ghost use Rattle.batch_packer.specs.Flying.{CanFly, IsWithin};
ghost use Rattle.batch_packer.specs.Kept.{HasSent};
ghost use Rattle.batch_packer.specs.SlotList.{slot_room};

use crate::accesses::AccessList;
use crate::ends::FlightEnd;
use crate::flying::fly;
use crate::packing::{MOST_REQUESTS, UNUSED};
use crate::slots::Slots;
use dap_base::OutOfMemory;
use dap_messages::Request;
use flight_forms::{FlightSize, Form};
use probe_core::{Bench, Limits, PacketList};
use std::alloc::Global;
use std::marker::Model;
use target_machine::RegAccess;

mod actions;

// Forgets the packets and the replies unless the flight was cut or a reply was bad.
fn forget(end: Option<FlightEnd>, packets: &mut PacketList, replies: &mut PacketList)
    ensures packets { packets.new ≡ record packets.old { items = items_kept end packets.old.items } }
    ensures replies { replies.new ≡ record replies.old { items = items_kept end replies.old.items } }
{
    match end {
        None | Some(FlightEnd::BenchFault) => {
            packets.clear();
            replies.clear();
        }
        Some(FlightEnd::Cut(_) | FlightEnd::ReplyBad) => {}
    }
}

// Whether a flight that was sent in this form can be used again after this end.
fn can_resume(form: Form, end: Option<FlightEnd>) -> bool
    ensures { result ≡ can_resume form end }
{
    match (form, end) {
        (Form::Transfer, Some(FlightEnd::Cut(cut))) => cut.response == 0x04,
        _ => false,
    }
}

/// Register accesses that are sent together. It is filled access by access and then sent. At a cut, a
/// bad reply or a fault of the bench the flight is ended, and every later call that sends answers the
/// same end and sends nothing. Contracts see the limits, the accesses that were pushed and not sent, the
/// end, and the packets and replies of that end.
#[derive(Drop)]
pub struct Flight {
    limits: Limits,
    // of the accesses
    size: FlightSize,
    accesses: AccessList,
    packets: PacketList,
    replies: PacketList,
    // room for the requests of one packet
    requests: [Request; 255],
    // room for one packet or reply
    bytes: [u8; 1024],
    end: Option<FlightEnd>,
    resumable: bool,
    // at which packet and reply it ended
    at: usize,
}

impl Model for Flight {
    ghost use Rattle.batch_packer.specs.FlightStates.{FlightState, IsSoundFlight};

    ghost Value = { FlightState };

    ghost view = { λ f. record {
      limits = f.limits;
      accesses = f.accesses.items;
      end = f.end;
      resumable = f.resumable;
      packets = f.packets.items;
      replies = f.replies.items;
      at = f.at;
    } };

    ghost invariant = { λ f. IsSoundFlight f.limits f.size f.accesses f.packets f.replies };
}

impl Flight {
    /// A flight of no accesses, for a bench with limits of at least these: packet size 64 to 1,024, packet
    /// count 1 to 64. All memory that it will need is taken now. `OutOfMemory` where memory is refused.
    pub fn new(alloc: Global, limits: Limits) -> Result<Flight, OutOfMemory>
        requires { AreLimits limits }
        ensures { IfOk result (λ flight. flight ≡ new_flight limits) }
    {
        let count = limits.packet_count as usize;
        let Ok(accesses) = AccessList::with_room(alloc, 255 * count) else {
            return Err(OutOfMemory);
        };
        let Ok(packets) = PacketList::with_room(alloc, count) else {
            return Err(OutOfMemory);
        };
        let Ok(replies) = PacketList::with_room(alloc, count) else {
            return Err(OutOfMemory);
        };
        Ok(Flight {
            limits,
            size: FlightSize::new(limits.packet_size, limits.packet_count),
            accesses,
            packets,
            replies,
            requests: [UNUSED; MOST_REQUESTS],
            bytes: [0; 1024],
            end: None,
            resumable: false,
            at: 0,
        })
    }

    /// Gives a flight of no accesses smaller limits: packet size from 64, packet count from 1.
    pub fn limit_to(&mut self, limits: Limits)
        requires limits { AreLimits limits }
        requires within { IsWithin limits self.old.limits }
        requires empty { self.old.accesses ≡ [] }
        ensures { self.new ≡ record self.old { limits = limits } }
    {
        self.limits = limits;
        self.size = FlightSize::new(limits.packet_size, limits.packet_count);
    }

    /// Whether some form holds the flight with this access more: a block of writes, one Transfer, or a guarded chain. The access is one
    /// that a flight takes. That is any of an access port, and of the debug port a read of 0x0 or 0x4, or a write of 0x0, 0x4, 0x8 or 0xC.
    pub fn room(&self, next: RegAccess) -> bool
        requires { IsTaken next }
        ensures { result ≡ has_room self.now.limits self.now.accesses next }
    {
        self.size.room(next)
    }

    /// Adds an access for which there is room, and answers its place, from 0.
    pub fn push(&mut self, next: RegAccess) -> u32
        requires taken { IsTaken next }
        requires room { has_room self.old.limits self.old.accesses next ≡ true }
        ensures place { result ≡ length self.old.accesses }
        ensures pushed { self.new ≡ record self.old { accesses = self.old.accesses ++ next ∷ [] } }
    {
        let place = self.accesses.len() as u32;
        self.size = self.size.with(next);
        self.accesses.push(next);
        place
    }

    /// How many accesses were pushed and not sent.
    pub fn count(&self) -> u32
        ensures { result ≡ length self.now.accesses }
    {
        self.accesses.len() as u32
    }

    // Forgets the packets and replies that were kept.
    fn begin(&mut self)
        ensures { self.new ≡ record self.old { packets = []; replies = []; at = 0 } }
    {
        self.packets.clear();
        self.replies.clear();
        self.at = 0;
    }

    // Forgets the accesses.
    fn forget_accesses(&mut self)
        ensures { self.new ≡ record self.old { accesses = [] } }
    {
        self.accesses.clear();
        self.size = FlightSize::new(self.limits.packet_size, self.limits.packet_count);
    }

    // Notes how a flight ended, and keeps the packets and the replies of a cut or a bad reply.
    fn note_end(&mut self, end: Option<FlightEnd>)
        ensures { self.new ≡ record self.old {
          end = end;
          resumable = false;
          packets = items_kept end self.old.packets;
          replies = items_kept end self.old.replies;
        } }
    {
        forget(end, &mut self.packets, &mut self.replies);
        self.end = end;
        self.resumable = false;
    }

    // The form that holds the flight; `None` where there is no access.
    fn form(&self) -> Option<Form>
        ensures { result ≡ sent_form self.now.limits self.now.accesses }
    {
        if self.accesses.len() == 0 {
            None
        } else {
            self.size.form()
        }
    }

    // Sends a flight that has not ended, and answers how it ends, or `None` where it came to its end.
    fn send_now<B: Bench>(&mut self, bench: &mut B, slots: &mut Slots) -> Option<FlightEnd>
        requires free { MaySend self.old (B.reported bench.old) }
        requires within { IsWithin self.old.limits (B.reported bench.old).limits }
        requires room { slot_room self.old.limits ≤ slots.old.room }
        ensures flown { StepsWhere CanFly (FlownBy self.old result slots.new.values) (B.state bench.old) (B.state bench.new) }
        ensures read { EndedBy self.old (B.reported bench.new).last.replies result slots.new.values }
        ensures short { IsShort (length self.old.accesses) result }
        ensures sent { got_replies result ≡ true → HasSent self.old self.new (B.reported bench.old) (B.reported bench.new) }
        ensures end { self.new.end ≡ result }
        ensures empty { self.new.accesses ≡ [] }
        ensures limits { self.new.limits ≡ self.old.limits }
        ensures resumable { self.new.resumable ≡ can_resume_by (sent_form self.old.limits self.old.accesses) result }
        ensures packets { self.new.packets ≡ items_kept result (B.reported bench.new).last.packets }
        ensures replies { self.new.replies ≡ items_kept result (B.reported bench.new).last.replies }
        ensures slots_room { slots.new.room ≡ slots.old.room }
        ensures keeps { EndsOver B.reported B.state B.identity result bench.old bench.new }
    {
        slots.clear();
        self.begin();
        let Some(form) = self.form() else {
            self.resumable = false;
            return None;
        };
        let end = fly(
            form,
            self.limits,
            self.accesses.as_slice(),
            &mut self.packets,
            &mut self.replies,
            &mut self.requests,
            &mut self.bytes,
            &mut self.at,
            slots,
            bench,
        );
        self.note_end(end);
        self.forget_accesses();
        self.resumable = can_resume(form, end);
        end
    }

    /// Sends the flight in the first form that holds it: a block of writes, one Transfer, or a guarded chain. Reads every reply, and gives
    /// the slots the values of its confirmed accesses. The flight is empty afterwards. An empty flight sends nothing.
    ///
    /// It needs a bench that holds no packet, in which no reply waits, and whose limits are at least the
    /// flight's; and slots with room for the flight's limits. After `Ok` the bench again holds no packet,
    /// and no reply waits.
    ///
    /// - `Cut`: a reply to this call says 02 or 04; the slots have the confirmed accesses alone.
    /// - `ReplyBad`: a received reply breaks the rules of replies, or those on chains.
    /// - `BenchFault`: a bench call failed; the flight did nothing, or a part of its accesses.
    ///
    /// After any of the three the flight has ended: each later `send` answers the same and does nothing.
    pub fn send<B: Bench>(&mut self, bench: &mut B, slots: &mut Slots) -> Result<(), FlightEnd>
        requires open { self.old.end ≡ None → IsOpen (B.reported bench.old) }
        requires within { self.old.end ≡ None → IsWithin self.old.limits (B.reported bench.old).limits }
        requires room { slot_room self.old.limits ≤ slots.old.room }
        // The answer is the end of the flight.
        ensures answer { MatchResult result (λ _. self.new.end ≡ None) (λ end. self.new.end ≡ Some end) }
        // A flight that has ended stays as it is, with its end, and so do the slots and the bench.
        ensures again { IfSome self.old.end (λ _. self.new ≡ self.old) }
        ensures again_slots { IfSome self.old.end (λ _. slots.new ≡ slots.old) }
        ensures again_reported { IfSome self.old.end (λ _. B.reported bench.new ≡ B.reported bench.old) }
        ensures again_state { IfSome self.old.end (λ _. B.state bench.new ≡ B.state bench.old) }
        // What was done, where the bench is observable: exactly the first of the accesses.
        ensures flown { self.old.end ≡ None
            → StepsWhere CanFly (FlownBy self.old self.new.end slots.new.values) (B.state bench.old) (B.state bench.new) }
        // How it ends, by the replies to this call.
        ensures read { self.old.end ≡ None → EndedBy self.old (B.reported bench.new).last.replies self.new.end slots.new.values }
        // A cut names accesses of the flight.
        ensures short { self.old.end ≡ None → IsShort (length self.old.accesses) self.new.end }
        ensures empty { self.old.end ≡ None → self.new.accesses ≡ [] }
        ensures limits { self.new.limits ≡ self.old.limits }
        ensures resumable { self.old.end ≡ None
            → self.new.resumable ≡ can_resume_by (sent_form self.old.limits self.old.accesses) self.new.end }
        // Its packets are those of its form, and as many replies came.
        ensures sent { self.old.end ≡ None → got_replies self.new.end ≡ true
            → HasSent self.old self.new (B.reported bench.old) (B.reported bench.new) }
        // At a cut or a bad reply the packets and the replies are kept.
        ensures packets { self.old.end ≡ None → self.new.packets ≡ items_kept self.new.end (B.reported bench.new).last.packets }
        ensures replies { self.old.end ≡ None → self.new.replies ≡ items_kept self.new.end (B.reported bench.new).last.replies }
        ensures slots_room { slots.new.room ≡ slots.old.room }
        ensures keeps { GoesOnOver B.reported B.state B.identity bench.old bench.new }
        // A fault of the bench comes only where its count rose.
        ensures cause { self.old.end ≡ None → HasEndCause (B.reported bench.old).faults (B.reported bench.new).faults self.new.end }
    {
        if let Some(end) = self.end {
            return Err(end);
        }
        match self.send_now(bench, slots) {
            None => Ok(()),
            Some(end) => Err(end),
        }
    }

    /// Whether the flight was cut with the response 04 as one unguarded Transfer, and not resumed since.
    pub fn can_resume(&self) -> bool
        ensures { result ≡ self.now.resumable }
    {
        self.resumable
    }

    /// Makes a flight usable again that was cut with the response 04 as one unguarded Transfer. It is
    /// empty afterwards.
    pub fn resume(&mut self)
        requires { self.old.resumable ≡ true }
        ensures { self.new ≡ record self.old { accesses = []; end = None; resumable = false; packets = []; replies = [] } }
    {
        self.forget_accesses();
        self.packets.clear();
        self.replies.clear();
        self.end = None;
        self.resumable = false;
    }

    /// The packet at which the flight ended, where it was cut or a reply was bad; else nothing.
    pub fn sent(&self) -> &[u8]
        ensures sent { result.now ≡ item_at self.now.packets self.now.at }
        ensures bound { length result.now ≤ 1024 }
    {
        if self.at < self.packets.len() {
            self.packets.get(self.at)
        } else {
            &[]
        }
    }

    /// The reply to that packet; else nothing.
    pub fn got(&self) -> &[u8]
        ensures got { result.now ≡ item_at self.now.replies self.now.at }
        ensures bound { length result.now ≤ 1024 }
    {
        if self.at < self.replies.len() {
            self.replies.get(self.at)
        } else {
            &[]
        }
    }
}
