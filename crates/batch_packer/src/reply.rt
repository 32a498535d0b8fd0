//! What the reply to a packet says of the accesses of its command.
ghost use Rattle.std.specs.Prelude.{◌≡◌, ◌+◌, ◌≤◌, List, [], ◌∷◌, length, slice_get, IfSome, Some};
ghost use Rattle.dap_messages.specs.declared.command.PacketKind.{PacketKind};
ghost use Rattle.dap_messages.specs.declared.command_value.CommandValue.{CommandValue};
ghost use Rattle.dap_replies.specs.ReplyReading.{reply_read};
ghost use Rattle.dap_replies.specs.ReplyViews.{IsReplyTo};
ghost use Rattle.dap_messages.specs.Responses.{response_of};
ghost use Rattle.dap_transfer.specs.Laws.{AreNormal};
ghost use Rattle.batch_packer.specs.Readings.{IsPacketOf, IsReadFrom, IsShown, ReadsFew, part_as, reading, shown_in};

use crate::part::{FlightProgress, progress_by};
use crate::slots::Slots;
use dap_messages::{CommandView, Request, Response, packet_view};
use dap_replies::{ReplyView, reply_view};

// The command of a packet at this index.
fn command_in<'a>(packet: &'a [u8], index: u8) -> Option<CommandView<'a>>
    ensures { (kind : PacketKind) (commands : List CommandValue) → IsPacketOf kind commands packet.now
        → result ≡ slice_get commands index }
{
    match packet_view(packet) {
        Ok(view) => view.command(index),
        Err(_) => None,
    }
}

// What a reply shows, where it is one that the command may get.
fn view_in<'a>(command: &CommandView<'_>, reply: &'a [u8]) -> Option<ReplyView<'a>>
    ensures read { result ≡ shown_in (reply_read command.now reply.now) }
    ensures answers { IfSome result (IsReplyTo command.now reply.now) }
{
    match reply_view(command, reply) {
        Ok(view) => Some(view),
        Err(_) => None,
    }
}

/// What a reply to the command of a packet at this index shows, where it is one that the command may
/// get.
pub fn view_at<'a>(packet: &[u8], index: u8, reply: &'a [u8]) -> Option<ReplyView<'a>>
    ensures { (kind : PacketKind) (commands : List CommandValue) (command : CommandValue) → IsPacketOf kind commands packet.now
        → slice_get commands index ≡ Some command → result ≡ shown_in (reply_read command reply.now) }
{
    match command_in(packet, index) {
        None => None,
        Some(command) => view_in(&command, reply),
    }
}

// Reads the reply to a command, where so many requests of the command come before these.
fn read_view(
    view: &ReplyView<'_>,
    before: usize,
    requests: &[Request],
    slots: &mut Slots,
) -> Option<FlightProgress>
    requires normal { AreNormal requests.now }
    requires few { length requests.now ≤ 255 }
    requires room { length slots.old.values + length requests.now ≤ slots.old.room }
    ensures shown { IsShown (part_as before requests.now view.now (response_of view.now.response)) result
        slots.old.values slots.new.values }
    ensures few { ReadsFew result slots.old slots.new }
{
    match Response::from_code(view.response()) {
        None => None,
        Some(response) => {
            let count = (view.count() as usize)
                .saturating_sub(before)
                .min(requests.len());
            Some(progress_by(&requests[..count], response, view, slots))
        }
    }
}

/// Reads the reply to a packet of one command that has these requests after so many others, and adds
/// the values of the confirmed accesses to the slots. `None` exactly where it is no reply that the
/// command may get.
#[tactic(auto, using(crate::proofs::ShortLemmas::read_from))]
pub fn read_reply(
    packet: &[u8],
    before: usize,
    requests: &[Request],
    reply: &[u8],
    slots: &mut Slots,
) -> Option<FlightProgress>
    requires normal { AreNormal requests.now }
    requires few { length requests.now ≤ 255 }
    requires room { length slots.old.values + length requests.now ≤ slots.old.room }
    ensures shown { (kind : PacketKind) (command : CommandValue) → IsPacketOf kind (command ∷ []) packet.now
        → IsShown (reading command before requests.now reply.now) result slots.old.values slots.new.values }
    ensures from { (kind : PacketKind) (command : CommandValue) → IsPacketOf kind (command ∷ []) packet.now
        → IfSome result (IsReadFrom command before requests.now reply.now slots.old.values slots.new.values) }
    ensures few { ReadsFew result slots.old slots.new }
{
    match command_in(packet, 0) {
        None => None,
        Some(command) => match view_in(&command, reply) {
            None => None,
            Some(view) => read_view(&view, before, requests, slots),
        },
    }
}
