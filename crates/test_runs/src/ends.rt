//! How calls and runs end, as text.
use access_calls::{Access, Ending, Stop};
use function_calls::End;
use std::alloc::{AllocError, Global};
use target_calls::{Slot, Value};

fn stop_text(alloc: Global, stop: Stop) -> Result<String, AllocError> {
    match stop {
        Stop::Cut(report) => format!(in alloc; "cut {report:?}"),
        Stop::BenchFault { issued, confirmed } => {
            format!(in alloc; "bench fault issued {issued} confirmed {confirmed}")
        }
        Stop::ReplyBad => String::from_str(alloc, "bad reply"),
        Stop::OutOfMemory => String::from_str(alloc, "out of memory"),
    }
}

// Why the access has ended: it answers its end again.
fn stopped_text<A: Access>(alloc: Global, access: &mut A) -> Result<String, AllocError> {
    match access.flush() {
        Ok(()) => String::from_str(alloc, "stopped, and the access goes on"),
        Err(stop) => stop_text(alloc, stop),
    }
}

/// Why a call over this access goes no further.
pub(crate) fn end_text<A: Access>(
    alloc: Global,
    end: End,
    access: &mut A,
) -> Result<String, AllocError> {
    match end {
        End::Halted(cause) => format!(in alloc; "halts {cause:?}"),
        End::Stopped => stopped_text(alloc, access),
        End::OutOfMemory => stop_text(alloc, Stop::OutOfMemory),
        End::WriteFault => String::from_str(alloc, "write fault"),
    }
}

/// What a call over this access answers: a number, or the place of its result.
pub(crate) fn answer_text<A: Access>(
    alloc: Global,
    answer: Result<Value, End>,
    access: &mut A,
) -> Result<String, AllocError> {
    match answer {
        Ok(Value::Number(number)) => format!(in alloc; "0x{number:x}"),
        Ok(Value::Pending(Slot { index })) => format!(in alloc; "result {index}"),
        Err(end) => end_text(alloc, end, access),
    }
}

/// How a run ended.
pub(crate) fn ending_text(alloc: Global, ending: Ending) -> Result<String, AllocError> {
    match ending {
        Ending::Done => String::from_str(alloc, "done"),
        Ending::Halted(cause) => format!(in alloc; "halted {cause:?}"),
        Ending::Cut(report) => stop_text(alloc, Stop::Cut(report)),
        Ending::BenchFault { issued, confirmed } => {
            stop_text(alloc, Stop::BenchFault { issued, confirmed })
        }
        Ending::ReplyBad => stop_text(alloc, Stop::ReplyBad),
        Ending::WriteFault => String::from_str(alloc, "write fault"),
        Ending::OutOfMemory => stop_text(alloc, Stop::OutOfMemory),
    }
}
