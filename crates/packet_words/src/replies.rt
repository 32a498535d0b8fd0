//! The replies to the commands of a packet, one after the other.
ghost use Rattle.std.specs.Prelude.{◌≡◌, ◌≤◌, ◌<◌, ◌+◌, length, take, if◌then◌else◌};
ghost use Rattle.dap_messages.specs.Replies.{last_is_posted};
ghost use Rattle.dap_messages.specs.Requests.{reads_in, gives_word, is_posted, kind};
ghost use Rattle.packet_words.specs.Replies.{words_in_reply, transfer_size, reply_size, own_bytes};

use dap_messages::{CommandValue, Commands, Request, RequestKind, Requests};

// What the first requests of a transfer are.
#[derive(Clone, Copy, Debug)]
struct FirstRequests {
    // How many of them are normal reads.
    reads: usize,
    // Whether the last of them is a normal read of an AP register.
    last_is_posted: bool,
}

// What the first so many requests are.
fn first_requests(requests: &Requests<'_>, count: u8) -> FirstRequests
    requires { count ≤ length requests.now }
    ensures reads { result.reads ≡ reads_in (take count requests.now) }
    ensures few { result.reads ≤ 255 }
    ensures posted { result.last_is_posted ≡ last_is_posted requests.now count }
{
    let mut left = requests.iter();
    let mut executed = FirstRequests {
        reads: 0,
        last_is_posted: false,
    };
    for _ in 0..count {
        let Some(request) = left.next() else {
            return executed;
        };
        executed = executed.with(request);
    }
    executed
}

impl FirstRequests {
    // The same, where this request follows.
    fn with(self, request: Request) -> FirstRequests
        requires { self.reads < 255 }
        ensures reads { result.reads ≡ self.reads + (if gives_word (kind request) then 1 else 0) }
        ensures posted { result.last_is_posted ≡ is_posted (kind request) }
    {
        FirstRequests {
            reads: self.reads + usize::from(request.is_read()),
            last_is_posted: request.kind() == RequestKind::Posted,
        }
    }
}

// How many words a reply has.
#[tactic(auto, unfolding(crate::specs::Replies::words_in_reply))]
fn words_given(executed: FirstRequests, response: u8, size: usize) -> usize
    requires { executed.reads ≤ 255 }
    ensures value { result ≡ words_in_reply executed.reads executed.last_is_posted response size }
    ensures few { result ≤ 255 }
{
    if executed.last_is_posted && response != 0x01 && size < 4 * executed.reads {
        executed.reads.saturating_sub(1)
    } else {
        executed.reads
    }
}

// The length of the reply to a transfer that the bytes begin with.
#[tactic(auto, unfolding(crate::specs::Replies::transfer_size))]
fn transfer_size(requests: &Requests<'_>, bytes: &[u8]) -> usize
    ensures { result ≡ transfer_size requests.now bytes.now }
{
    match bytes {
        [_, count, _, words @ ..] if *count > requests.len() => 3 + words.len(),
        [_, count, response, words @ ..] => {
            3 + 4 * words_given(first_requests(requests, *count), *response, words.len())
        }
        _ => bytes.len(),
    }
}

// The length of the reply to a command that the bytes begin with.
#[tactic(auto, unfolding(crate::specs::Replies::reply_size))]
fn reply_size(command: &CommandValue<'_>, bytes: &[u8]) -> usize
    ensures { result ≡ reply_size command.now bytes.now }
{
    match command {
        CommandValue::Transfer(requests) => transfer_size(requests, bytes),
        CommandValue::Info(0xFE) => 3,
        CommandValue::Info(_) | CommandValue::WriteBlock { .. } => 4,
        _ => 2,
    }
}

/// How many of the bytes are the reply to a command, where these commands follow it: all where there are
/// none.
pub fn own_bytes(later: &Commands<'_>, command: &CommandValue<'_>, bytes: &[u8]) -> usize
    ensures value { result ≡ own_bytes later.now command.now bytes.now }
    ensures within { result ≤ length bytes.now }
{
    if later.len() == 0 {
        bytes.len()
    } else {
        reply_size(command, bytes).min(bytes.len())
    }
}
