//! What a reply shows of the accesses of its command.
ghost use Rattle.std.specs.Prelude.{◌≡◌, ◌<◌, ◌≤◌, ◌+◌, ◌++◌, ◌^◌, ◌&&◌, ◌||◌, false, length, nat_lt, not, slice_get};
ghost use Rattle.dap_messages.specs.Requests.{kind_of, reads_in, write_after, write_last};
ghost use Rattle.target_machine.specs.Counts.{one_if};
ghost use Rattle.dap_transfer.specs.Laws.{AreNormal};
ghost use Rattle.dap_transfer.specs.Private.{word_of};
ghost use Rattle.dap_transfer.specs.Wires.{access_of};
ghost use Rattle.flight_forms.specs.Flights.{is_own, part_of, seen_one, seen_values};
ghost use Rattle.batch_packer.specs.Readings.{IsFew};
ghost use Rattle.batch_packer.specs.SlotList.{SlotList};
ghost use Rattle.dap_messages.specs.Responses.{is_good};

use crate::slots::Slots;
use dap_messages::{ADDRESS_BITS, APNDP, RNW, Request, RequestKind, Response};
use dap_replies::ReplyView;

/// How far the accesses of a flight, or of one of its commands, came.
#[derive(Clone, Copy, Debug, PartialEq, Eq)]
pub struct FlightProgress {
    /// How many accesses were performed.
    pub performed: usize,
    /// How many of these are known to have been good.
    pub confirmed: usize,
    /// How the command ended.
    pub response: Response,
}

// Whether a request is an access of the flight's own, and no read of RDBUFF, which checks a write.
fn is_own(request: Request) -> bool
    ensures { result ≡ is_own (access_of request) }
{
    request.byte & APNDP != 0 || request.byte & RNW == 0 || request.byte & ADDRESS_BITS != 0xC
}

// Adds the value of one executed request, if it is an access of the flight's own, where so many words were before it. Answers how many
// words there were after it.
fn put_value(request: Request, word: u16, view: &ReplyView<'_>, slots: &mut Slots) -> u16
    requires few { word < 2 ^ 15 }
    requires room { length slots.old.values < slots.old.room }
    ensures values { slots.new ≡ record slots.old { values = slots.old.values ++ seen_one request (slice_get view.now.words word) } }
    ensures word { result ≡ word + word_of (kind_of request.byte) }
{
    if !request.is_read() {
        slots.push(None);
        return word;
    }
    if is_own(request) {
        slots.push(view.word(word));
    }
    word + 1
}

// Whether the last access is a write, after this request.
fn is_write_after(request: Request, is_write: bool) -> bool
    ensures { result ≡ write_last (kind_of request.byte) is_write }
{
    match request.kind() {
        RequestKind::Posted | RequestKind::Read | RequestKind::Match => false,
        RequestKind::Mask => is_write,
        RequestKind::Write => true,
    }
}

// Adds the values that the words of a reply give to the accesses among the executed requests. Answers how many words there should be, and
// whether the last access is a write.
fn put_values(executed: &[Request], view: &ReplyView<'_>, slots: &mut Slots) -> (u16, bool)
    requires normal { AreNormal executed.now }
    requires few { length executed.now ≤ 255 }
    requires room { length slots.old.values + length executed.now ≤ slots.old.room }
    ensures values { slots.new ≡ record slots.old { values = slots.old.values ++ seen_values executed.now view.now.words } }
    ensures reads { result.0 ≡ reads_in executed.now }
    ensures write { result.1 ≡ write_after false executed.now }
{
    let mut word: u16 = 0;
    let mut is_write = false;
    for request in executed {
        word = put_value(*request, word, view, slots);
        is_write = is_write_after(*request, is_write);
    }
    (word, is_write)
}

/// How far the accesses came, by a reply that names these requests as executed. The values of the
/// confirmed ones are added to the slots.
pub fn progress_by(
    executed: &[Request],
    response: Response,
    view: &ReplyView<'_>,
    slots: &mut Slots,
) -> FlightProgress
    requires normal { AreNormal executed.now }
    requires few { length executed.now ≤ 255 }
    requires room { length slots.old.values + length executed.now ≤ slots.old.room }
    ensures performed { result.performed ≡ (part_of executed.now response view.now.words).performed }
    ensures confirmed { result.confirmed ≡ (part_of executed.now response view.now.words).confirmed }
    ensures response { result.response ≡ response }
    ensures values { slots.new ≡ record slots.old { values = slots.old.values ++ (part_of executed.now response view.now.words).values } }
    ensures few { IsFew result slots.old.values slots.new.values }
{
    let before = slots.len();
    let (reads, is_write) = put_values(executed, view, slots);
    let performed = slots.len() - before;
    let confirmed = performed.saturating_sub(count_doubted(response, reads, is_write, view));
    slots.cut(before + confirmed);
    FlightProgress {
        performed,
        confirmed,
        response,
    }
}

// 1 where it is not known of the last access that it was good, and else 0.
fn count_doubted(response: Response, reads: u16, is_write: bool, view: &ReplyView<'_>) -> usize
    ensures { result ≡ one_if (not (is_good response) && (is_write || nat_lt (length view.now.words) reads)) }
{
    if response == Response::Good {
        return 0;
    }
    if is_write || reads > 0 && view.word(reads - 1).is_none() {
        1
    } else {
        0
    }
}
