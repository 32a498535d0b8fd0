//! The words of a report.
ghost use Rattle.std.specs.Prelude.{◌≡◌};
ghost use Rattle.report_lines.specs.Words.{bit_word, direction_word, halt_word, stop_word};

use access_calls::StopCause;
use target_machine::HaltCause;

/// Why a run halted.
pub fn halt_text(cause: HaltCause) -> &'static str
    ensures { result.now ≡ halt_word cause }
{
    match cause {
        HaltCause::DivideByZero => "DivideByZero",
        HaltCause::Unsupported => "Unsupported",
        HaltCause::AddressTooLarge => "AddressTooLarge",
        HaltCause::Misaligned => "Misaligned",
        HaltCause::ArgumentOutOfRange => "ArgumentOutOfRange",
        HaltCause::AccessLimit => "AccessLimit",
        HaltCause::MessageLimit => "MessageLimit",
        HaltCause::StepLimit => "StepLimit",
    }
}

/// A fault of the bus, or a retry that ended.
pub fn stop_text(cause: StopCause) -> &'static str
    ensures { result.now ≡ stop_word cause }
{
    match cause {
        StopCause::Faulted => "faulted",
        StopCause::NoAnswer => "noanswer",
    }
}

/// Whether an access reads.
pub fn direction_text(is_read: bool) -> &'static str
    ensures { result.now ≡ direction_word is_read }
{
    if is_read { "read" } else { "write" }
}

/// A flag as a digit.
pub fn bit_text(is_set: bool) -> &'static str
    ensures { result.now ≡ bit_word is_set }
{
    if is_set { "1" } else { "0" }
}
