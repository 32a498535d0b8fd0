//! The words of a fault of a packet or a reply.
ghost use Rattle.std.specs.Prelude.{◌≡◌, ◌++◌, IfOk};
ghost use Rattle.dap_messages.specs.PacketReading.{place_of};
ghost use Rattle.packet_words.specs.Exchange.{message_fault_name, message_fault_words};

use dap_base::OutOfMemory;
use dap_messages::MessageError;
use text_lines::Line;

#[tactic(auto, unfolding(crate::specs::Exchange::message_fault_name))]
fn fault_name(fault: MessageError) -> &'static str
    ensures { result.now ≡ message_fault_name fault }
{
    match fault {
        MessageError::Long(_) => "Long",
        MessageError::Short(_) => "Short",
        MessageError::BadId(_) => "BadId",
        MessageError::BadCount(_) => "BadCount",
        MessageError::BadRequest(_) => "BadRequest",
        MessageError::TrailingBytes(_) => "TrailingBytes",
    }
}

fn place_of(fault: MessageError) -> usize
    ensures { result ≡ place_of fault }
{
    match fault {
        MessageError::Long(place)
        | MessageError::Short(place)
        | MessageError::BadId(place)
        | MessageError::BadCount(place)
        | MessageError::BadRequest(place)
        | MessageError::TrailingBytes(place) => place,
    }
}

/// A fault and its place.
#[tactic(auto, unfolding(crate::specs::Exchange::message_fault_words))]
pub fn with_fault(line: Line, fault: MessageError) -> Result<Line, OutOfMemory>
    ensures { IfOk result (λ l. l ≡ line ++ message_fault_words fault) }
{
    line.text(fault_name(fault))?
        .add_labelled(" at ", place_of(fault) as u64)
}
