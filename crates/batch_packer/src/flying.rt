//! A flight over a bench, in the form that holds it.
ghost use Rattle.std.specs.Prelude.{◌≡◌, ◌<◌, Some, true, length, IfOk, IfSome, OnOk, OnErr};
ghost use Rattle.flight_forms.specs.Flights.{IsPartOf};
ghost use Rattle.flight_forms.specs.Forms.{form_of};
ghost use Rattle.batch_packer.specs.AccessLists.{AreSendable};
ghost use Rattle.batch_packer.specs.Exchanges.{CallsOver, HasExchanged};
ghost use Rattle.batch_packer.specs.FlightEnds.{EndsBy, EndsOver, Flew, IsShort, IsSmall};
ghost use Rattle.batch_packer.specs.FlightEnds.{end_at, end_of, flight_reading, form_reading, got_replies};
ghost use Rattle.batch_packer.specs.Flying.{HasFlownBy, MayHaveFlown, StepsReady, TakesFlights};
ghost use Rattle.batch_packer.specs.Kept.{form_ended_at, form_packets};
ghost use Rattle.batch_packer.specs.Readings.{IsSeen, part_with};
ghost use Rattle.batch_packer.specs.Rooms.{IsFreshRoom, KeepsRoom};

use crate::alone::fly_alone;
use crate::chain::fly_chain;
use crate::ends::{Cut, FlightEnd};
use crate::part::FlightProgress;
use crate::slots::Slots;
use dap_base::Failed;
use dap_messages::{Request, Response};
use flight_forms::Form;
use probe_core::{Bench, Limits, PacketList};
use target_machine::RegAccess;

// Sends a flight in this form, reads its replies, and adds the values of the confirmed accesses to the
// slots. `None` where a reply breaks the rules. `at` is the reply at which a chain ended.
fn fly_in<B: Bench>(
    form: Form,
    limits: Limits,
    accesses: &[RegAccess],
    packets: &mut PacketList,
    replies: &mut PacketList,
    requests: &mut [Request],
    bytes: &mut [u8],
    at: &mut usize,
    slots: &mut Slots,
    bench: &mut B,
) -> Result<Option<FlightProgress>, Failed>
    requires bench { TakesFlights limits (B.reported bench.old) }
    requires some { 0 < length accesses.now }
    requires form { form_of limits.packet_size limits.packet_count accesses.now ≡ Some form }
    requires accesses { AreSendable accesses.now }
    requires room { IsFreshRoom limits.packet_count packets.old replies.old requests.old bytes.old slots.old }
    requires at { at.old ≡ 0 }
    ensures flown { IfOk result (λ progress. StepsReady B.reported B.state
        (HasFlownBy form accesses.now progress slots.new.values) bench.old bench.new) }
    ensures failed { OnErr result (StepsReady B.reported B.state (MayHaveFlown form accesses.now) bench.old bench.new) }
    ensures read { IfOk result (λ progress.
        IsSeen (form_reading form limits.packet_size accesses.now replies.new.items) progress slots.new.values) }
    ensures short { IfOk result (λ progress. IfSome progress (λ p. IsPartOf (length accesses.now) (part_with p slots.new.values))) }
    ensures few { IfOk result (λ progress. IfSome progress IsSmall) }
    ensures packets { OnOk result (packets.new.items ≡ form_packets form limits.packet_size accesses.now) }
    ensures at { OnOk result (at.new ≡ form_ended_at form limits.packet_size accesses.now replies.new.items) }
    ensures exchanged { OnOk result (HasExchanged packets.new.items replies.new.items (B.reported bench.old) (B.reported bench.new)) }
    ensures room { KeepsRoom packets.old packets.new replies.old replies.new slots.old slots.new }
    ensures keeps { CallsOver B.reported B.state B.identity result bench.old bench.new }
{
    match form {
        Form::Block => fly_alone(
            true, accesses, packets, replies, requests, bytes, slots, bench,
        ),
        Form::Transfer => fly_alone(
            false, accesses, packets, replies, requests, bytes, slots, bench,
        ),
        Form::Chain => fly_chain(
            limits.packet_size,
            accesses,
            packets,
            replies,
            requests,
            bytes,
            at,
            slots,
            bench,
        ),
    }
}

// How a flight ends that came so far; `None` where it came to its end.
fn end_at(progress: FlightProgress) -> Option<FlightEnd>
    requires { IsSmall progress }
    ensures { result ≡ end_at progress.response progress }
{
    match progress.response {
        Response::Good => None,
        Response::Wait | Response::Fault => Some(FlightEnd::Cut(Cut {
            performed: progress.performed as u32,
            confirmed: progress.confirmed as u32,
            response: progress.response.code(),
        })),
        Response::Mismatch => Some(FlightEnd::ReplyBad),
    }
}

// The same by what its replies said; they are bad where they said nothing.
fn end_of(progress: Option<FlightProgress>) -> Option<FlightEnd>
    requires { IfSome progress IsSmall }
    ensures { result ≡ end_of progress }
{
    match progress {
        None => Some(FlightEnd::ReplyBad),
        Some(progress) => end_at(progress),
    }
}

/// Sends a flight in this form, reads its replies, and answers how it ended, or `None` where it came
/// to its end. The values of the confirmed accesses are added to the slots. The packets and the replies
/// are kept, and `at` is the number of those at which a chain ended; `bytes` is room for one, and `requests` for its
/// requests.
pub fn fly<B: Bench>(
    form: Form,
    limits: Limits,
    accesses: &[RegAccess],
    packets: &mut PacketList,
    replies: &mut PacketList,
    requests: &mut [Request],
    bytes: &mut [u8],
    at: &mut usize,
    slots: &mut Slots,
    bench: &mut B,
) -> Option<FlightEnd>
    requires bench { TakesFlights limits (B.reported bench.old) }
    requires some { 0 < length accesses.now }
    requires form { form_of limits.packet_size limits.packet_count accesses.now ≡ Some form }
    requires accesses { AreSendable accesses.now }
    requires room { IsFreshRoom limits.packet_count packets.old replies.old requests.old bytes.old slots.old }
    requires at { at.old ≡ 0 }
    ensures flown { StepsReady B.reported B.state (Flew form accesses.now result slots.new.values) bench.old bench.new }
    ensures read { EndsBy (flight_reading form limits.packet_size accesses.now (B.reported bench.new).last.replies) result slots.new.values }
    ensures short { IsShort (length accesses.now) result }
    ensures packets { got_replies result ≡ true → packets.new.items ≡ form_packets form limits.packet_size accesses.now }
    ensures at { got_replies result ≡ true → at.new ≡ form_ended_at form limits.packet_size accesses.now replies.new.items }
    ensures exchanged { got_replies result ≡ true
        → HasExchanged packets.new.items replies.new.items (B.reported bench.old) (B.reported bench.new) }
    ensures room { KeepsRoom packets.old packets.new replies.old replies.new slots.old slots.new }
    ensures keeps { EndsOver B.reported B.state B.identity result bench.old bench.new }
{
    match fly_in(
        form, limits, accesses, packets, replies, requests, bytes, at, slots, bench,
    ) {
        Err(Failed) => Some(FlightEnd::BenchFault),
        Ok(progress) => end_of(progress),
    }
}
