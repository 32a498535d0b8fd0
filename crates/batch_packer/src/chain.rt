//! A guarded chain over a bench: its packets, its replies, and what they show.
ghost use Rattle.std.specs.Prelude.{◌≡◌, ◌+◌, ◌*◌, ◌^◌, ◌≤◌, ◌<◌, ◌++◌, ℕ, List, [], Option, if◌then◌else◌, length, IfSome, IfOk, OnOk, OnErr};
ghost use Rattle.flight_forms.specs.Chains.{AllTaken};
ghost use Rattle.flight_forms.specs.Flights.{IsPartOf};
ghost use Rattle.flight_forms.specs.Forms.{parts_of};
ghost use Rattle.flight_forms.specs.Packets.{FitChain, chain_packets};
ghost use Rattle.flight_forms.specs.declared.form.Form.TheVariants.{Chain};
ghost use Rattle.batch_packer.specs.AccessLists.{AreSendable};
ghost use Rattle.batch_packer.specs.ChainReadings.{chain_ended_at, chain_reading, guarded_reading, is_mismatch};
ghost use Rattle.batch_packer.specs.ChainReadings.{is_of_one, joined_if, then_reading, values_kept};
ghost use Rattle.batch_packer.specs.Exchanges.{CallsOver, HasExchanged, TakesPackets};
ghost use Rattle.batch_packer.specs.FlightEnds.{IsSmall};
ghost use Rattle.batch_packer.specs.Flying.{HasFlownBy, MayHaveFlown, StepsReady};
ghost use Rattle.batch_packer.specs.Queues.{IsChain, IsSentPart};
ghost use Rattle.batch_packer.specs.Readings.{IsNear, IsSeen, IsShown, ReadsFew, part_with};
ghost use Rattle.batch_packer.specs.Rooms.{IsFreshRoom, KeepsRoom, most_requests};
ghost use Rattle.dap_messages.specs.Responses.{is_good};

use crate::packing::put_packets;
use crate::part::FlightProgress;
use crate::queue::{receive_all, send_all};
use crate::reply::read_reply;
use crate::slots::Slots;
use dap_base::Failed;
use dap_messages::{Request, Response};
use flight_forms::{first_part, put_guarded_requests};
use probe_core::{Bench, PacketList};
use target_machine::RegAccess;

// How many requests of a guarded command come before those of its accesses.
const GUARD: usize = 2;

// Whether a reply begins with DAP_ExecuteCommands, or with DAP_QueueCommands, and the number 1.
fn is_of_one(id: u8, count: u8) -> bool
    ensures { result ≡ is_of_one id count }
{
    (id == 0x7F || id == 0x7E) && count == 1
}

// Reads the reply to the packet of one part, and adds the values of its confirmed accesses to the
// slots. `None` where it is no reply that the packet may get.
fn read_part(
    accesses: &[RegAccess],
    packet: &[u8],
    reply: &[u8],
    requests: &mut [Request],
    slots: &mut Slots,
) -> Option<FlightProgress>
    requires requests { length requests.old ≡ most_requests }
    requires part { IsSentPart accesses.now packet.now }
    requires room { length slots.old.values + 255 ≤ slots.old.room }
    ensures shown { IsShown (guarded_reading accesses.now reply.now) result slots.old.values slots.new.values }
    ensures short { IfSome result (λ _. IfSome (guarded_reading accesses.now reply.now) (IsPartOf (length accesses.now))) }
    ensures few { ReadsFew result slots.old slots.new }
{
    let count = put_guarded_requests(accesses, requests);
    if reply.len() < 2 || !is_of_one(reply[0], reply[1]) {
        return None;
    }
    read_reply(
        packet,
        GUARD,
        &requests[GUARD..count - 1],
        &reply[2..],
        slots,
    )
}

// Whether every request was executed.
fn is_good(response: Response) -> bool
    ensures { result ≡ is_good response }
{
    response == Response::Good
}

// Whether a value match was not met.
fn is_mismatch(response: Response) -> bool
    ensures { result ≡ is_mismatch response }
{
    response == Response::Mismatch
}

// How far a chain came, by how far it had come and how far its next command came. `None` where the
// next makes accesses after one that did not come to its end, or makes none after one that did.
fn join_progress(so_far: FlightProgress, next: FlightProgress) -> Option<FlightProgress>
    requires performed { so_far.performed < 2 ^ 32 }
    requires confirmed { so_far.confirmed < 2 ^ 32 }
    requires next_performed { next.performed ≤ 255 }
    requires next_confirmed { next.confirmed ≤ 255 }
    ensures seen { (before values : List (Option ℕ)) →
        IsSeen (joined_if (is_good so_far.response) (is_mismatch next.response) (part_with so_far before) (part_with next values)) result
        (values_kept (is_mismatch next.response) before values) }
    ensures few { IfSome result (IsNear so_far) }
{
    if is_mismatch(next.response) {
        if is_good(so_far.response) {
            None
        } else {
            Some(so_far)
        }
    } else if is_good(so_far.response) {
        Some(FlightProgress {
            performed: so_far.performed + next.performed,
            confirmed: so_far.confirmed + next.confirmed,
            response: next.response,
        })
    } else {
        None
    }
}

// Forgets the values after the first ones, where a value match was not met.
fn keep(response: Response, len: usize, slots: &mut Slots)
    requires { len ≤ length slots.old.values }
    ensures values { (before values : List (Option ℕ)) → length before ≡ len → slots.old.values ≡ before ++ values
        → slots.new.values ≡ values_kept (is_mismatch response) before values }
    ensures room { slots.new.room ≡ slots.old.room }
{
    if is_mismatch(response) {
        slots.cut(len);
    }
}

// Reads the reply to the packet of one part, after others that said how far the chain came. `None`
// where it is no reply that the packet may get, or breaks the rules on chains.
fn read_next(
    so_far: FlightProgress,
    accesses: &[RegAccess],
    packet: &[u8],
    reply: &[u8],
    requests: &mut [Request],
    slots: &mut Slots,
) -> Option<FlightProgress>
    requires requests { length requests.old ≡ most_requests }
    requires part { IsSentPart accesses.now packet.now }
    requires room { length slots.old.values + 255 ≤ slots.old.room }
    requires performed { so_far.performed < 2 ^ 32 }
    requires confirmed { so_far.confirmed < 2 ^ 32 }
    ensures seen { IsSeen (then_reading (part_with so_far slots.old.values) (guarded_reading accesses.now reply.now)) result slots.new.values }
    ensures short { IfSome result (λ _. IfSome (guarded_reading accesses.now reply.now) (IsPartOf (length accesses.now))) }
    ensures few { IfSome result (IsNear so_far) }
    ensures values { IfSome result (λ _. length slots.new.values ≤ length slots.old.values + 255) }
    ensures room { slots.new.room ≡ slots.old.room }
{
    let len = slots.len();
    match read_part(accesses, packet, reply, requests, slots) {
        None => None,
        Some(next) => {
            keep(next.response, len, slots);
            join_progress(so_far, next)
        }
    }
}

// Notes at which reply a chain ended, as long as all before it came to their end.
fn mark(so_far: FlightProgress, index: usize, at: &mut usize)
    ensures { at.new ≡ (if is_good so_far.response then index else at.old) }
{
    if is_good(so_far.response) {
        *at = index;
    }
}

// Reads the replies to the packets of a chain in order. `None` at the first that breaks the rules.
// `at` is the reply at which the chain ended.
fn read_packets(
    packet_size: u16,
    accesses: &[RegAccess],
    packets: &PacketList,
    replies: &PacketList,
    requests: &mut [Request],
    slots: &mut Slots,
    at: &mut usize,
) -> Option<FlightProgress>
    requires requests { length requests.old ≡ most_requests }
    requires few { length accesses.now < 65535 }
    requires taken { AllTaken (parts_of packet_size accesses.now) }
    requires fits { FitChain 1024 (parts_of packet_size accesses.now) }
    requires packets { packets.now.items ≡ chain_packets (parts_of packet_size accesses.now) }
    requires replies { length replies.now.items ≡ length packets.now.items }
    requires many { length packets.now.items ≤ 255 }
    requires slots { slots.old.values ≡ [] }
    requires room { 255 * length packets.now.items ≤ slots.old.room }
    requires at { at.old ≡ 0 }
    ensures at { at.new ≡ chain_ended_at packet_size accesses.now replies.now.items }
    ensures seen { IsSeen (chain_reading packet_size accesses.now replies.now.items) result slots.new.values }
    ensures short { IfSome result (λ p. IsPartOf (length accesses.now) (part_with p slots.new.values)) }
    ensures few { IfSome result IsSmall }
    ensures room { slots.new.room ≡ slots.old.room }
{
    let mut so_far = FlightProgress {
        performed: 0,
        confirmed: 0,
        response: Response::Good,
    };
    let mut start = 0;
    for i in 0..replies.len() {
        let rest = &accesses[start..];
        let len = first_part(packet_size, rest);
        mark(so_far, i, at);
        match read_next(
            so_far,
            &rest[..len],
            packets.get(i),
            replies.get(i),
            requests,
            slots,
        ) {
            None => {
                *at = i;
                return None;
            }
            Some(progress) => so_far = progress,
        }
        start += len;
    }
    Some(so_far)
}

/// Sends a flight as a guarded chain, reads its replies, and adds the values of the confirmed accesses
/// to the slots. `None` where a reply breaks the rules of replies, or the two on chains. The packets and
/// the replies are kept, and `at` is the number of those at which it ended; `bytes` is room for one, and `requests` for its
/// requests.
pub fn fly_chain<B: Bench>(
    packet_size: u16,
    accesses: &[RegAccess],
    packets: &mut PacketList,
    replies: &mut PacketList,
    requests: &mut [Request],
    bytes: &mut [u8],
    at: &mut usize,
    slots: &mut Slots,
    bench: &mut B,
) -> Result<Option<FlightProgress>, Failed>
    requires bench { TakesPackets (B.reported bench.old) }
    requires chain { IsChain packet_size (B.reported bench.old).limits accesses.now }
    requires accesses { AreSendable accesses.now }
    requires room { IsFreshRoom (length (parts_of packet_size accesses.now)) packets.old replies.old requests.old bytes.old slots.old }
    requires at { at.old ≡ 0 }
    ensures flown { IfOk result (λ progress. StepsReady B.reported B.state
        (HasFlownBy Chain accesses.now progress slots.new.values) bench.old bench.new) }
    ensures failed { OnErr result (StepsReady B.reported B.state (MayHaveFlown Chain accesses.now) bench.old bench.new) }
    ensures read { IfOk result (λ progress. IsSeen (chain_reading packet_size accesses.now replies.new.items) progress slots.new.values) }
    ensures short { IfOk result (λ progress. IfSome progress (λ p. IsPartOf (length accesses.now) (part_with p slots.new.values))) }
    ensures few { IfOk result (λ progress. IfSome progress IsSmall) }
    ensures packets { OnOk result (packets.new.items ≡ chain_packets (parts_of packet_size accesses.now)) }
    ensures at { OnOk result (at.new ≡ chain_ended_at packet_size accesses.now replies.new.items) }
    ensures exchanged { OnOk result (HasExchanged packets.new.items replies.new.items (B.reported bench.old) (B.reported bench.new)) }
    ensures room { KeepsRoom packets.old packets.new replies.old replies.new slots.old slots.new }
    ensures keeps { CallsOver B.reported B.state B.identity result bench.old bench.new }
{
    put_packets(packet_size, accesses, packets, requests, bytes);
    send_all(packets, bench)?;
    receive_all(packets.len(), replies, bytes, bench)?;
    Ok(read_packets(packet_size, accesses, packets, replies, requests, slots, at))
}
