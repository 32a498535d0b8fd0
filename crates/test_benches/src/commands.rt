//! Commands of the probe by their names.
ghost use Rattle.std.specs.Prelude.{◌≡◌, true};
ghost use Rattle.std.specs.List.{AllByRecursion};
ghost use Rattle.dap_messages.specs.Commands.{IsCommand, command_value};
ghost use Rattle.dap_messages.specs.Requests.{IsRequest};
ghost use Rattle.dap_messages.specs.declared.command_value.CommandValue.TheVariants.{Line, WriteBlock};

use dap_messages::{Command, Request, RequestKind};
use test_words::{RowError, RowWords};

/// A command other than a Transfer and a block of writes, by its name and its numbers: `DAP_Info 0xFF`,
/// `DAP_TransferConfigure 0 100 0` with idle cycles, WAIT retries and match retries, `DAP_WriteABORT 0x1E`, `DAP_Delay 1000`,
/// `DAP_SWJ_Pins 0 0x80 3` with output, selected pins and wait, `DAP_SWJ_Clock 1000000`, `DAP_SWJ_Sequence 16 0xE79E`.
pub fn command_of(words: &mut RowWords<'_>) -> Result<Command<'static>, RowError> {
    match words.word()? {
        "DAP_Info" => Ok(Command::Info(words.number8()?)),
        "DAP_TransferConfigure" => Ok(Command::Configure {
            idle: words.number8()?,
            retry: words.number16()?,
            matches: words.number16()?,
        }),
        "DAP_WriteABORT" => Ok(Command::Abort(words.number32()?)),
        "DAP_Delay" => Ok(Command::Delay(words.number16()?)),
        "DAP_SWJ_Pins" => Ok(Command::Pins {
            output: words.number8()?,
            select: words.number8()?,
            wait: words.number32()?,
        }),
        "DAP_SWJ_Clock" => Ok(Command::Clock(words.number32()?)),
        "DAP_SWJ_Sequence" => Ok(Command::Line {
            count: words.number8()?,
            bits: words.number()?,
        }),
        _ => Err(RowError::Unreadable),
    }
}

// Whether the byte is a request byte, and the word is 0 where it takes none.
fn is_request(request: Request) -> bool
    ensures { result ≡ true → IsRequest request }
{
    let byte = request.byte;
    if byte == 0x20 {
        return true;
    }
    if byte > 0x1F || byte & 0x02 == 0 && byte & 0x10 != 0 {
        return false;
    }
    match request.kind() {
        RequestKind::Posted | RequestKind::Read => request.word == 0,
        RequestKind::Match | RequestKind::Mask | RequestKind::Write => true,
    }
}

// Whether all are requests.
fn are_requests(requests: &[Request]) -> bool
    ensures { result ≡ true → AllByRecursion IsRequest requests.now }
{
    requests.iter().all(|request| is_request(*request))
}

// Whether the bits have this count.
fn is_line(count: u8, bits: u64) -> bool
    ensures { result ≡ true → IsCommand (Line count bits) }
{
    match count {
        1..=63 => bits >> count == 0,
        64 => true,
        _ => false,
    }
}

// Whether two words are written with this request byte.
fn is_block(request: u8, words: &[u32]) -> bool
    ensures { result ≡ true → IsCommand (WriteBlock request words.now) }
{
    match words {
        [first, second] => {
            let _two = (*first, *second);
            request < 0x10 && request & 0x02 == 0
        }
        _ => false,
    }
}

/// Whether a command is in its ranges. Of blocks of writes only those of two words are.
pub fn is_command(command: &Command<'_>) -> bool
    ensures { result ≡ true → IsCommand (command_value command.now) }
{
    match *command {
        Command::Info(id) => id == 0xFE || id == 0xFF,
        Command::Configure {
            idle: _idle,
            retry: _retry,
            matches: _matches,
        } => true,
        Command::Transfer(requests) => {
            !requests.is_empty() && requests.len() < 256 && are_requests(requests)
        }
        Command::WriteBlock { request, words } => is_block(request, words),
        Command::Abort(_word) => true,
        Command::Delay(_time) => true,
        Command::Pins {
            output: _output,
            select: _select,
            wait: _wait,
        } => true,
        Command::Clock(clock) => clock != 0,
        Command::Line { count, bits } => is_line(count, bits),
    }
}
