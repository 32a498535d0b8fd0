//! The kinds of functions.
ghost use Rattle.std.specs.Prelude.{◌≡◌};
ghost use Rattle.function_calls.specs.Kinds.{IsSized, call_kind_of};

use function_table::Function;

// What a command of the probe is for.
#[derive(Clone, Copy, Debug, PartialEq, Eq)]
pub(crate) enum ProbeKind {
    Delay,
    Clock,
    Abort,
    Pins,
    Bits,
}

// Which line is written.
#[derive(Clone, Copy, Debug, PartialEq, Eq)]
pub(crate) enum LineKind {
    Message,
    Query,
    Value,
    Load,
}

// The kind of a function.
#[derive(Clone, Copy, Debug, PartialEq, Eq)]
pub(crate) enum Kind {
    Memory { size: u8, read: bool },
    Ap { read: bool },
    Dp { read: bool },
    Probe(ProbeKind),
    Writes(LineKind),
    Unsupported,
    Nothing,
}

// The kind of the function. `Sequence` does nothing here: the caller calls the sequence.
pub(crate) fn call_kind_of(function: Function) -> Kind
    ensures kind { result ≡ call_kind_of function }
    ensures sized { IsSized result }
{
    match function {
        Function::Read8 => Kind::Memory {
            size: 1,
            read: true,
        },
        Function::Read16 => Kind::Memory {
            size: 2,
            read: true,
        },
        Function::Read32 => Kind::Memory {
            size: 4,
            read: true,
        },
        Function::Read64 => Kind::Memory {
            size: 8,
            read: true,
        },
        Function::Write8 => Kind::Memory {
            size: 1,
            read: false,
        },
        Function::Write16 => Kind::Memory {
            size: 2,
            read: false,
        },
        Function::Write32 => Kind::Memory {
            size: 4,
            read: false,
        },
        Function::Write64 => Kind::Memory {
            size: 8,
            read: false,
        },
        Function::ReadAp => Kind::Ap { read: true },
        Function::WriteAp => Kind::Ap { read: false },
        Function::ReadDp => Kind::Dp { read: true },
        Function::WriteDp => Kind::Dp { read: false },
        Function::DapDelay => Kind::Probe(ProbeKind::Delay),
        Function::DapSwjClock => Kind::Probe(ProbeKind::Clock),
        Function::DapWriteAbort => Kind::Probe(ProbeKind::Abort),
        Function::DapSwjPins => Kind::Probe(ProbeKind::Pins),
        Function::DapSwjSequence => Kind::Probe(ProbeKind::Bits),
        Function::DapJtagSequence => Kind::Unsupported,
        Function::Sequence => Kind::Nothing,
        Function::Message => Kind::Writes(LineKind::Message),
        Function::Query => Kind::Writes(LineKind::Query),
        Function::QueryValue => Kind::Writes(LineKind::Value),
        Function::LoadDebugInfo => Kind::Writes(LineKind::Load),
    }
}
