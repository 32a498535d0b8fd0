//! Sources and sinks in memory are observable: code that knows them by the traits alone still sees
//! their content. Each law is the contract of a call that goes through the bound.
ghost use Rattle.std.specs.Prelude.{Some};
ghost use Rattle.std.specs.Io.KnownBytes.{ReadConsumes};
ghost use Rattle.dap_base.specs.Causes.{HasCause};
ghost use Rattle.dap_base.specs.Streams.{PutAppends};

use crate::{Failed, MemorySink, MemorySource, Sink, Source};

fn taken_through<S: Source>(source: &mut S, buf: &mut [u8]) -> Result<usize, Failed>
    ensures bytes { ReadConsumes (S.left source.old) (S.left source.new) result buf.new }
    ensures cause { HasCause (S.faults source.old) (S.faults source.new) result }
{
    source.take(buf)
}

fn put_through<S: Sink>(sink: &mut S, piece: &[u8]) -> Result<(), Failed>
    ensures bytes { PutAppends (S.written sink.old) (S.written sink.new) result piece.now }
    ensures cause { HasCause (S.faults sink.old) (S.faults sink.new) result }
{
    sink.put(piece)
}

/// What the trait says of a source that is observable is true of one in memory. A take through the bound moves the first bytes that are
/// left, and its count of faults is the one that is seen.
pub fn a_memory_source_is_observable(
    source: &mut MemorySource,
    buf: &mut [u8],
) -> Result<usize, Failed>
    ensures bytes { ReadConsumes (Some source.old.left) (Some source.new.left) result buf.new }
    ensures cause { HasCause source.old.faults source.new.faults result }
{
    taken_through(source, buf)
}

/// What the trait says of a sink that is observable is true of one in memory. A put through the bound appends to the bytes that were
/// written, and its count of faults is the one that is seen.
pub fn a_memory_sink_is_observable(sink: &mut MemorySink, piece: &[u8]) -> Result<(), Failed>
    ensures bytes { PutAppends (Some sink.old.written) (Some sink.new.written) result piece.now }
    ensures cause { HasCause sink.old.faults sink.new.faults result }
{
    put_through(sink, piece)
}
