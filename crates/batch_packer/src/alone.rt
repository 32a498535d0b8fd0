//! A flight in one packet over a bench: a block of writes, or one Transfer.
ghost use Rattle.std.specs.Prelude.{◌≡◌, [], ◌∷◌, true, length, IfOk, IfSome, OnOk, OnErr};
ghost use Rattle.dap_messages.specs.Commands.{command_bytes};
ghost use Rattle.flight_forms.specs.Flights.{IsPartOf};
ghost use Rattle.flight_forms.specs.Packets.{FitsPacket};
ghost use Rattle.batch_packer.specs.AccessLists.{AreSendable};
ghost use Rattle.batch_packer.specs.Alone.{IsBlock, one_command, one_form, one_reading};
ghost use Rattle.batch_packer.specs.Exchanges.{CallsOver, HasExchanged, TakesPackets};
ghost use Rattle.batch_packer.specs.FlightEnds.{IsSmall};
ghost use Rattle.batch_packer.specs.Flying.{HasFlownBy, MayHaveFlown, StepsReady};
ghost use Rattle.batch_packer.specs.Readings.{IsSeen, part_with};
ghost use Rattle.batch_packer.specs.Rooms.{IsFreshRoom, KeepsRoom};

use crate::exchange::exchange;
use crate::packing::write_one;
use crate::part::FlightProgress;
use crate::reply::read_reply;
use crate::slots::Slots;
use dap_base::Failed;
use dap_messages::Request;
use flight_forms::put_requests;
use probe_core::{Bench, PacketList};
use target_machine::RegAccess;

/// Sends a flight in one packet, a block or one Transfer, reads its reply, and adds the values of the
/// confirmed accesses to the slots. `None` where the reply is none that the packet may get. The packet
/// and the reply are kept; `bytes` is room for either, and `requests` for the requests of one Transfer.
pub fn fly_alone<B: Bench>(
    is_block: bool,
    accesses: &[RegAccess],
    packets: &mut PacketList,
    replies: &mut PacketList,
    requests: &mut [Request],
    bytes: &mut [u8],
    slots: &mut Slots,
    bench: &mut B,
) -> Result<Option<FlightProgress>, Failed>
    requires bench { TakesPackets (B.reported bench.old) }
    requires block { is_block ≡ true → IsBlock accesses.now }
    requires accesses { AreSendable accesses.now }
    requires fits { FitsPacket (B.reported bench.old).limits.packet_size 0 (one_command is_block accesses.now) }
    requires room { IsFreshRoom 1 packets.old replies.old requests.old bytes.old slots.old }
    ensures flown { IfOk result (λ progress. StepsReady B.reported B.state
        (HasFlownBy (one_form is_block) accesses.now progress slots.new.values) bench.old bench.new) }
    ensures failed { OnErr result (StepsReady B.reported B.state (MayHaveFlown (one_form is_block) accesses.now) bench.old bench.new) }
    ensures read { IfOk result (λ progress. IsSeen (one_reading is_block accesses.now replies.new.items) progress slots.new.values) }
    ensures short { IfOk result (λ progress. IfSome progress (λ p. IsPartOf (length accesses.now) (part_with p slots.new.values))) }
    ensures few { IfOk result (λ progress. IfSome progress IsSmall) }
    ensures packets { OnOk result (packets.new.items ≡ command_bytes (one_command is_block accesses.now) ∷ []) }
    ensures exchanged { OnOk result (HasExchanged packets.new.items replies.new.items (B.reported bench.old) (B.reported bench.new)) }
    ensures room { KeepsRoom packets.old packets.new replies.old replies.new slots.old slots.new }
    ensures keeps { CallsOver B.reported B.state B.identity result bench.old bench.new }
{
    let count = put_requests(accesses, requests);
    let size = write_one(is_block, accesses, &requests[..count], bytes);
    packets.push(&bytes[..size]);
    let len = exchange(packets.get(0), bytes, bench)?;
    replies.push(&bytes[..len]);
    Ok(read_reply(packets.get(0), 0, &requests[..count], replies.get(0), slots))
}
